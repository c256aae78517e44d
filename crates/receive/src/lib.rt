// Receive: the next packet that was dispatched, by its cell of the store; C-11: or the block, which stands in the second store.
#![tactic(auto)]

ghost use Rattle.std.specs.Prelude.{◌≡◌};
ghost use Rattle.receive.specs.Calls.{lowered, cleared_by, received_of, answer_of, receives};
ghost use Rattle.peer.specs.Outcome.{Came};
ghost use Rattle.places.specs.Whole.{whole};

use numbers::refusals::Refusal;
use peer::gate::Lent;
use peer::settings::Settings;
use places::{RECORD, groups, pools};
use queues::dispatched;
use record::fresh::NO_MARKS;
use record::groups::{Incoming, Marks, Waiting};

#[derive(Clone, Copy)]
pub enum Received {
    Packet { channel: u8, cell: u16, length: u32 },
    Block { channel: u8, cell: u16, length: u32 },
}

fn lowered(waiting: Waiting, length: u32) -> Waiting
    ensures { result ≡ lowered waiting length }
{
    let mut w = waiting;
    w.total = std::num::wrapping_sub_u32(waiting.total, length);
    w
}

// The marks once this slot is received: a block takes its own with it.
fn cleared_by(slot: Incoming, marks: Marks) -> Marks
    ensures { result ≡ cleared_by slot marks }
{
    if blocks::is_block(slot) {
        return NO_MARKS;
    }
    marks
}

// A packet by its cell, or the block.
fn received_of(slot: Incoming, s: u16) -> Received
    ensures { result ≡ received_of slot s }
{
    if blocks::is_block(slot) {
        return Received::Block {
            channel: slot.channel,
            cell: s,
            length: slot.length,
        };
    }
    Received::Packet {
        channel: slot.channel,
        cell: s,
        length: slot.length,
    }
}

// Refused by 11 and 13; nothing there, or the head's channel, cell and length.
pub fn receive(words: &mut [u32; RECORD], settings: Settings) -> Result<Option<Received>, Refusal>
    ensures { Came answer_of (receives settings (whole words.old)) result (whole words.new) }
{
    gate::ask(words, settings, Lent::Nothing)?;
    let first = dispatched::head(words);
    let Some(s) = first else {
        return Ok(None);
    };
    let slot = pools::incoming_at(words, s as usize);
    dispatched::leave(words);
    let waiting = lowered(groups::waiting(words), slot.length);
    groups::put_waiting(words, waiting);
    let marks = cleared_by(slot, groups::marks(words));
    groups::put_marks(words, marks);
    Ok(Some(received_of(slot, s)))
}
