// Which command an acknowledgement removes, by searches over the slots that the lists name, and what its removal leaves.
ghost use Rattle.std.specs.Prelude.{◌≡◌, map, length};
ghost use Rattle.acknowledge.specs.Removal.{in_sent, in_queue, seek, lists_without, slot_at, held_by, flow_left, flow_without, times_without, command_at};
ghost use Rattle.record.specs.Lists.{out_items};
ghost use Rattle.peer.specs.Updates.{with_lists};
ghost use Rattle.pool.specs.Slots.{brief_of};
ghost use Rattle.places.specs.Whole.{whole, record_length};
ghost use Rattle.queues.specs.Queues.{out_of};
ghost use Rattle.acknowledge.specs.CodeSearches.{look_of, at, spot_in, slot_of};

use command::bytes;
use numbers::counters::Reliable;
use places::{RECORD, pools};
use pool::Brief;
use queues::{Out, outgoing};
use record::OUTGOING;
use record::groups::{Flow, Times};

// Where the command stands: in which list, and at which place.
#[derive(Clone, Copy)]
pub struct Spot {
    pub list: Out,
    pub place: usize,
}

// What a search makes of a command: it goes on past it, this is the one, or it ends there.
#[derive(Clone, Copy)]
pub enum Seen {
    GoesOn,
    Found,
    Ends,
}

// Among those sent: this is the one, or it goes on.
fn in_sent(slot: Brief, number: Reliable, channel: u8) -> Seen
    ensures { result ≡ in_sent number.0 channel (slot_of slot) }
{
    let own = slot.reliable;
    if own.0 != number.0 {
        return Seen::GoesOn;
    }
    if slot.channel != channel {
        return Seen::GoesOn;
    }
    Seen::Found
}

// Among those queued: only an acknowledged one counts, and an unsent one ends the search.
fn in_queue(slot: Brief, number: Reliable, channel: u8) -> Seen
    ensures { result ≡ in_queue number.0 channel (slot_of slot) }
{
    if !bytes::is_acknowledged(slot.byte) {
        return Seen::GoesOn;
    }
    if slot.attempts < 1 {
        return Seen::Ends;
    }
    in_sent(slot, number, channel)
}

// What a search makes of slot s; it goes on past one that does not exist.
fn look(words: &[u32; RECORD], s: usize, number: Reliable, channel: u8, sent: bool) -> Seen
    ensures { result ≡ at (map (look_of sent number.0 channel) (whole words.now).outgoing) s }
{
    if OUTGOING <= s {
        return Seen::GoesOn;
    }
    let slot = pools::brief_at(words, s);
    if sent {
        return in_sent(slot, number, channel);
    }
    in_queue(slot, number, channel)
}

fn seek(
    words: &[u32; RECORD],
    list: Out,
    number: Reliable,
    channel: u8,
    sent: bool,
) -> Option<usize>
    ensures { result ≡ seek (at (map (look_of sent number.0 channel) (whole words.now).outgoing)) 0 (out_items (out_of list (whole words.now).lists)) }
{
    for k in 0..outgoing::count(words, list) {
        let s = outgoing::slot_at(words, list, k);
        match look(words, s as usize, number, channel, sent) {
            Seen::GoesOn => (),
            Seen::Found => return Some(k),
            Seen::Ends => return None,
        }
    }
    None
}

// Sent, then outgoing, then send-reliable.
pub fn spot_in(words: &[u32; RECORD], number: Reliable, channel: u8) -> Option<Spot>
    ensures { result ≡ spot_in (whole words.now).outgoing number.0 channel (whole words.now).lists }
{
    let f = seek(words, Out::Sent, number, channel, true);
    if let Some(place) = f {
        return Some(Spot {
            list: Out::Sent,
            place,
        });
    }
    let f = seek(words, Out::Outgoing, number, channel, false);
    if let Some(place) = f {
        return Some(Spot {
            list: Out::Outgoing,
            place,
        });
    }
    let f = seek(words, Out::Reliable, number, channel, false);
    if let Some(place) = f {
        return Some(Spot {
            list: Out::Reliable,
            place,
        });
    }
    None
}

// The list leaves out place k.
pub fn leave(words: &mut [u32; RECORD], spot: Option<Spot>)
    ensures { whole words.new ≡ with_lists (whole words.old) (lists_without spot (whole words.old).lists) }
{
    if let Some(s) = spot {
        outgoing::remove(words, s.list, s.place);
    }
}

pub fn slot_at(words: &[u32; RECORD], spot: Option<Spot>) -> Option<u16>
    ensures { result ≡ slot_at spot (whole words.now).lists }
{
    match spot {
        Some(s) => Some(outgoing::slot_at(words, s.list, s.place)),
        None => None,
    }
}

// What the slot holds, in brief; an empty one where there is none.
pub fn held(words: &[u32; RECORD], slot: Option<u16>) -> Brief
    ensures { result ≡ brief_of (held_by (whole words.now).outgoing slot) }
{
    match slot {
        Some(s) => pools::brief_at(words, s as usize),
        None => pools::brief_at(words, OUTGOING),
    }
}

// In transit falls by a packet's piece length, only if it stood in sent.
fn flow_left(list: Out, slot: Brief, flow: Flow) -> Flow
    ensures { result ≡ flow_left list (slot_of slot) flow }
{
    let mut f = flow;
    if let Out::Sent = list {
        if slot.packet {
            f.transit = std::num::wrapping_sub_u32(flow.transit, slot.length as u32);
        }
    }
    f
}

pub fn flow_without(spot: Option<Spot>, slot: Brief, flow: Flow) -> Flow
    ensures { result ≡ flow_without spot (slot_of slot) flow }
{
    match spot {
        Some(s) => flow_left(s.list, slot, flow),
        None => flow,
    }
}

// If one was removed and sent is not empty, the next timeout is its head's.
pub fn times_without(removed: bool, left: bool, head: Brief, times: Times) -> Times
    ensures { result ≡ times_without removed left (slot_of head) times }
{
    let mut t = times;
    if removed {
        if left {
            t.next_timeout = std::num::wrapping_add_u32(head.sent, head.timeout);
        }
    }
    t
}

// The number of the command that was removed, and 0 for none.
pub fn command_at(removed: bool, slot: Brief) -> u8
    ensures { result ≡ command_at removed (slot_of slot) }
{
    if !removed {
        return 0;
    }
    slot.byte % 16
}
