// What a send is to do: which commands it queues, and whether it is refused.
ghost use Rattle.std.specs.Prelude.{◌≡◌};
ghost use Rattle.peer.specs.Gate.{then};
ghost use Rattle.packets.specs.Packets.{piece_count};
ghost use Rattle.packets.specs.Refusals.{send_gate, queue_gate};
ghost use Rattle.packets.specs.CodePlans.{packet_of, count_of, piece_at, next_at};

use crate::Cut;
use numbers::consts;
use numbers::refusals::Refusal;
use outbox::counting::Counters;
use outbox::pieces::Piece;
use peer::Peer;
use peer::settings::Settings;
use record::groups::Standing;

// A packet as it goes out: in one command, or cut.
#[derive(Clone, Copy)]
pub enum Packet {
    One(Piece),
    Pieces(Cut),
}

fn send_gate(
    settings: Settings,
    standing: Standing,
    channel: u8,
    length: u32,
) -> Result<(), Refusal>
    ensures { result ≡ send_gate settings channel length standing }
{
    if standing.state != Peer::CONNECTED {
        return Err(Refusal::NotConnected);
    }
    if standing.channels <= channel as u32 {
        return Err(Refusal::InvalidChannel);
    }
    if settings.packet < length {
        return Err(Refusal::PacketTooLarge);
    }
    Ok(())
}

fn queue_gate(count: u32, free: usize) -> Result<(), Refusal>
    ensures { result ≡ queue_gate count free }
{
    if consts::PROTOCOL_MAXIMUM_FRAGMENT_COUNT < count {
        return Err(Refusal::FragmentsExceeded);
    }
    if free < count as usize {
        return Err(Refusal::FailedToQueue);
    }
    Ok(())
}

// How many pieces of the fragment length a packet makes, the last one perhaps shorter.
fn piece_count(fragment: u16, length: u32) -> u32
    ensures { result ≡ piece_count fragment length }
{
    if fragment == 0 {
        return 0;
    }
    let wide = (length as u64) + (fragment as u64) - 1;
    (wide / (fragment as u64)) as u32
}

// Exactly the fragment length is one command, one more is pieces; by the channel's two numbers.
pub fn packet_of(flags: u32, k: Counters, channel: u8, length: u32, fragment: u16) -> Packet
    ensures { result ≡ packet_of flags k.reliable k.unreliable channel length fragment }
{
    if length <= fragment as u32 {
        return Packet::One(crate::whole(flags, k.unreliable, channel, length as u16));
    }
    let count = piece_count(fragment, length);
    let start = crate::start_of(flags, k.reliable, k.unreliable);
    Packet::Pieces(Cut {
        channel,
        length,
        fragment,
        count,
        start,
    })
}

pub fn count_of(packet: Packet) -> u32
    ensures { result ≡ count_of packet }
{
    match packet {
        Packet::One(_x) => 1,
        Packet::Pieces(x) => x.count,
    }
}

// Command j of a packet, at its offset.
pub fn piece_at(packet: Packet, j: u32, offset: u32) -> Piece
    ensures { result ≡ piece_at packet j offset }
{
    match packet {
        Packet::One(x) => x,
        Packet::Pieces(x) => crate::cut_piece(x, j, offset),
    }
}

// Where the next one begins.
pub fn next_at(packet: Packet, offset: u32) -> u32
    ensures { result ≡ next_at packet offset }
{
    match packet {
        Packet::One(_x) => offset,
        Packet::Pieces(x) => offset + crate::length_at(x, offset) as u32,
    }
}

// 1, 2, 3, 4, 5 of so many commands, with so many slots free: all of them are judged before anything changes.
pub fn plan_gate(
    settings: Settings,
    standing: Standing,
    channel: u8,
    length: u32,
    count: u32,
    free: usize,
) -> Result<(), Refusal>
    ensures { result ≡ then (send_gate settings channel length standing) (queue_gate count free) }
{
    send_gate(settings, standing, channel, length)?;
    queue_gate(count, free)
}
