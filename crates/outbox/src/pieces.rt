// A piece to set up: its command and what goes with it; and the slot that it fills.
ghost use Rattle.std.specs.Prelude.{◌≡◌};
ghost use Rattle.outbox.specs.Pieces.{fields_now, slot_of, grown};

use crate::counting::Stamped;
use command::fields::{Command, Fields};
use command::layout;
use numbers::counters::{Group, Unreliable};
use record::groups::Outgoing;

// What setting up is given: a command, whether a packet goes with it, and which part of the packet.
#[derive(Clone, Copy)]
pub struct Piece {
    pub command: Command,
    pub packet: bool,
    pub offset: u32,
    pub length: u16,
}

// Command 7 gets the unreliable number, command 9 the group.
fn fields_now(f: Fields, unreliable: Unreliable, group: Group) -> Fields
    ensures { result ≡ fields_now unreliable group f }
{
    match f {
        Fields::SendUnreliable { number: _, length } => Fields::SendUnreliable {
            number: unreliable,
            length,
        },
        Fields::SendUnsequenced { group: _, length } => Fields::SendUnsequenced { group, length },
        _ => f,
    }
}

// The slot of a piece, as it waits to be sent.
pub fn slot_of(x: Piece, stamped: Stamped, queued: u32) -> Outgoing
    ensures { result ≡ slot_of x stamped queued }
{
    let given = x.command;
    let f = given.fields;
    let counters = stamped.counters;
    let reliable = stamped.reliable;
    let unreliable = stamped.unreliable;
    let group = counters.group;
    let fields = fields_now(f, unreliable, group);
    Outgoing {
        reliable,
        unreliable,
        sent: 0,
        timeout: 0,
        queued,
        offset: x.offset,
        length: x.length,
        attempts: 0,
        packet: x.packet,
        command: Command {
            byte: given.byte,
            channel: given.channel,
            number: reliable,
            fields,
        },
    }
}

// The data total with a piece more, modulo 2^32.
pub fn grown(total: u32, x: Piece) -> u32
    ensures { result ≡ grown total x }
{
    let c = x.command;
    let size = layout::size_of(c.byte % 16);
    let more = std::num::wrapping_add_u32(total, size as u32);
    std::num::wrapping_add_u32(more, x.length as u32)
}
