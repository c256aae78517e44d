// What both arrivals share, and the unsequenced window on the record's groups.
#![tactic(auto)]

pub mod storing;

ghost use Rattle.std.specs.Prelude.{◌≡◌};
ghost use Rattle.record.specs.Updates.{with_window};
ghost use Rattle.arrival.specs.Storing.{awaiting, filled};
ghost use Rattle.arrival.specs.Arrivals.{is_receiving, is_whole, arrival_gate, room_for, reply_of, arrived_slot};
ghost use Rattle.arrival.specs.Window.{taken_at, judge_window};

use numbers::consts::UNSEQUENCED_WORDS;
use numbers::counters::{Group, Reliable};
use numbers::refusals::Refusal;
use peer::Peer;
use peer::settings::Settings;
use record::flags::flagged;
use record::groups::{CELL, Incoming, Standing, Unsequenced, Waiting};
use window::Verdict;

// A command that brings a whole packet, and where its payload begins in the datagram.
#[derive(Clone, Copy)]
pub struct Arrival {
    pub byte: u8,
    pub channel: u8,
    pub number: Reliable,
    pub length: u32,
    pub place: u32,
}

#[derive(Clone, Copy)]
pub enum Arrived {
    Passed,
    Stored,
}

// What becomes of an arrival that nothing refuses before 8.
#[derive(Clone, Copy)]
pub enum Fate {
    Passed,
    NoRoom,
    Stored(u16),
}

// The groups as an unsequenced arrival leaves them, and its fate.
#[derive(Clone, Copy)]
pub struct Judged {
    pub unsequenced: Unsequenced,
    pub fate: Fate,
}

// What a stored packet leaves beside the lists: its slot, and the waiting total with its length.
#[derive(Clone, Copy)]
pub struct Stored {
    pub slot: Incoming,
    pub waiting: Waiting,
}

fn is_receiving(channel: u8, standing: Standing) -> bool
    ensures { result ≡ is_receiving channel standing }
{
    if standing.channels <= channel as u32 {
        return false;
    }
    if standing.state == Peer::CONNECTED {
        return true;
    }
    standing.state == Peer::DISCONNECT_LATER
}

fn is_whole(a: Arrival, settings: Settings, end: usize) -> bool
    ensures { result ≡ is_whole a settings end }
{
    if settings.packet < a.length {
        return false;
    }
    if CELL < a.length {
        return false;
    }
    a.place as usize + a.length as usize <= end
}

// 9, 6, 7: end is the datagram's.
pub fn arrival_gate(
    command: u8,
    a: Arrival,
    settings: Settings,
    standing: Standing,
    end: usize,
) -> Result<(), Refusal>
    ensures { result ≡ arrival_gate command a settings standing end }
{
    if a.byte % 16 != command {
        return Err(Refusal::BadCommand);
    }
    if !is_receiving(a.channel, standing) {
        return Err(Refusal::NotReceiving);
    }
    if !is_whole(a, settings, end) {
        return Err(Refusal::LengthTooLarge);
    }
    Ok(())
}

// State 6 passes over, then 8, then the lowest free slot.
pub fn room_for(settings: Settings, state: u32, total: u32, free: Option<u16>) -> Fate
    ensures { result ≡ room_for settings state total free }
{
    if state == Peer::DISCONNECT_LATER {
        return Fate::Passed;
    }
    if settings.waiting <= total {
        return Fate::NoRoom;
    }
    match free {
        Some(s) => Fate::Stored(s),
        None => Fate::NoRoom,
    }
}

// "Stored": the payload into the cell of slot s, the slot, its length awaited.
pub fn keep(store: &mut [u8], s: u16, datagram: &[u8], a: Arrival, waiting: Waiting) -> Stored
    ensures slot_value { result.slot ≡ arrived_slot a }
    ensures waiting_value { result.waiting ≡ awaiting waiting a.length }
    ensures store_after { store.new ≡ filled store.old s datagram.now a.place a.length }
{
    storing::fill(store, s, datagram, a.place, a.length);
    Stored {
        slot: storing::incoming_of(a.byte, a.channel, a.number, a.length),
        waiting: storing::awaiting(waiting, a.length),
    }
}

// The base and the words of the window.
fn shift(unsequenced: Unsequenced, base: Group, words: [u32; UNSEQUENCED_WORDS]) -> Unsequenced
    ensures { result ≡ with_window unsequenced base words }
{
    let mut g = unsequenced;
    g.incoming = base;
    g.words = words;
    g
}

// The move is kept in any case; marked unless there was no room, and flagged once it is stored.
fn taken_at(
    room: Fate,
    unsequenced: Unsequenced,
    group: Group,
    base: Group,
    words: [u32; UNSEQUENCED_WORDS],
) -> Judged
    ensures { result ≡ taken_at room unsequenced group base words }
{
    match room {
        Fate::Passed => Judged {
            unsequenced: shift(unsequenced, base, window::marking(words, group)),
            fate: Fate::Passed,
        },
        Fate::NoRoom => Judged {
            unsequenced: shift(unsequenced, base, words),
            fate: Fate::NoRoom,
        },
        Fate::Stored(s) => Judged {
            unsequenced: flagged(shift(unsequenced, base, window::marking(words, group))),
            fate: Fate::Stored(s),
        },
    }
}

// A group against the window; room says what becomes of one that it takes.
pub fn judge_window(unsequenced: Unsequenced, group: Group, room: Fate) -> Judged
    ensures { result ≡ judge_window unsequenced group room }
{
    let words = unsequenced.words;
    let seen = window::judge(unsequenced.incoming, words, group);
    let verdict = seen.verdict;
    if let Verdict::Taken = verdict {
        let base = seen.base;
        let after = seen.words;
        return taken_at(room, unsequenced, group, base, after);
    }
    Judged {
        unsequenced,
        fate: Fate::Passed,
    }
}

// What a fate comes to for the caller.
pub fn reply_of(fate: Fate) -> Result<Arrived, Refusal>
    ensures { result ≡ reply_of fate }
{
    match fate {
        Fate::Passed => Ok(Arrived::Passed),
        Fate::NoRoom => Err(Refusal::NotStored),
        Fate::Stored(_) => Ok(Arrived::Stored),
    }
}
