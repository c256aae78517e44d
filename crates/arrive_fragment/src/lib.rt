// The arrival of a piece of a block, C-11.
#![tactic(auto)]

pub mod searching;
pub mod storing;

ghost use Rattle.std.specs.Prelude.{◌≡◌, List, ℕ, ◌<◌, length, Some, None};
ghost use Rattle.record.specs.Sizes.{channels};
ghost use Rattle.peer.specs.Outcome.{Came};
ghost use Rattle.places.specs.Whole.{whole, record_length};
ghost use Rattle.arrival.specs.Arrivals.{answer_of};
ghost use Rattle.arrive_fragment.specs.Pieces.{opens, fate_by, fate_on, reply_of};
ghost use Rattle.arrive_fragment.specs.Calls.{arrival_of, fragment_after, arrives_fragment};

use arrival::{Arrival, Arrived};
use command::bytes::SEND_FRAGMENT;
use command::fields::Fragment;
use numbers::counters::Reliable;
use numbers::refusals::Refusal;
use peer::Peer;
use peer::gate::Lent;
use peer::settings::Settings;
use places::{RECORD, groups, pools};

// A command that brings a piece, and where its payload begins in the datagram. Its own number is not read.
#[derive(Clone, Copy)]
pub struct Piece {
    pub byte: u8,
    pub channel: u8,
    pub number: Reliable,
    pub start: Reliable,
    pub fragment: Fragment,
    pub place: u32,
}

// What becomes of a piece that nothing refuses before 14: a first one goes to a free slot, a later one to its block's.
#[derive(Clone, Copy)]
pub enum Fate {
    Passed,
    Unfit,
    NoRoom,
    First(u16),
    Later(u16),
}

fn arrival_of(a: Piece) -> Arrival
    ensures { result ≡ arrival_of a }
{
    let start = a.start;
    let f = a.fragment;
    Arrival {
        byte: a.byte,
        channel: a.channel,
        number: start,
        length: f.length as u32,
        place: a.place,
    }
}

// Another block is there: 8.
fn opens(another: bool, room: arrival::Fate) -> Fate
    ensures { result ≡ opens another room }
{
    match room {
        arrival::Fate::Passed => Fate::Passed,
        arrival::Fate::NoRoom => Fate::NoRoom,
        arrival::Fate::Stored(s) => {
            if another {
                return Fate::NoRoom;
            }
            Fate::First(s)
        }
    }
}

// Passed over by its start, then 14, then 8.
fn first_fate(words: &[u32; RECORD], settings: Settings, a: Piece) -> Fate
    requires { a.channel < channels }
    ensures { result ≡ fate_by None settings a (whole words.now) }
{
    if arrive_reliable::holding::is_passed(words, a.channel as usize, a.start) {
        return Fate::Passed;
    }
    if !blocks::fields_fit(settings.packet, a.fragment) {
        return Fate::Unfit;
    }
    let standing = groups::standing(words);
    let waiting = groups::waiting(words);
    let free = arrival::storing::free_slot(words);
    let room = arrival::room_for(settings, standing.state, waiting.total, free);
    opens(searching::any_block(words), room)
}

// Of the block in slot s: 14, then passed over if it is marked.
fn later_fate(words: &[u32; RECORD], settings: Settings, a: Piece, s: u16) -> Fate
    ensures { result ≡ fate_by (Some s) settings a (whole words.now) }
{
    let f = a.fragment;
    if !blocks::fields_fit(settings.packet, f) {
        return Fate::Unfit;
    }
    let slot = pools::incoming_at(words, s as usize);
    if !blocks::like_first(f, slot) {
        return Fate::Unfit;
    }
    if blocks::piece_marked(groups::marks(words), f.number) {
        return Fate::Passed;
    }
    Fate::Later(s)
}

// What becomes of a piece that nothing refuses before 14.
fn fate_on(words: &[u32; RECORD], settings: Settings, a: Piece) -> Fate
    requires { a.channel < channels }
    ensures { result ≡ fate_on settings a (whole words.now) }
{
    let standing = groups::standing(words);
    if standing.state == Peer::DISCONNECT_LATER {
        return Fate::Passed;
    }
    let block = searching::unfinished(words, a.channel as usize, a.start);
    match block {
        None => first_fate(words, settings, a),
        Some(s) => later_fate(words, settings, a, s),
    }
}

// What a fate comes to for the caller.
fn reply_of(fate: Fate) -> Result<Arrived, Refusal>
    ensures { result ≡ reply_of fate }
{
    match fate {
        Fate::Passed => Ok(Arrived::Passed),
        Fate::Unfit => Err(Refusal::BadFragment),
        Fate::NoRoom => Err(Refusal::NotStored),
        Fate::First(_) => Ok(Arrived::Stored),
        Fate::Later(_) => Ok(Arrived::Stored),
    }
}

// What a fate leaves: a first piece begins its block, a later one is added to it.
fn keep(words: &mut [u32; RECORD], second: &mut [u8], datagram: &[u8], a: Piece, fate: Fate)
    requires { a.channel < channels }
    ensures { (store : List ℕ) → fragment_after fate a datagram.now (record { peer = whole words.old; store = store; second = second.old }) ≡ record { peer = whole words.new; store = store; second = second.new } }
{
    match fate {
        Fate::Passed => return,
        Fate::Unfit => return,
        Fate::NoRoom => return,
        Fate::First(s) => {
            storing::begin(words, second, datagram, a, s);
            return;
        }
        Fate::Later(s) => {
            storing::add(words, second, datagram, a, s);
            return;
        }
    }
}

// Refused by 11, 13, 9, 6 and 7, in this order; passed over by its start or in state 6; refused by 14; a marked one passed over; a first one refused by 8; or stored.
pub fn arrive(
    words: &mut [u32; RECORD],
    settings: Settings,
    store: &[u8],
    second: &mut [u8],
    datagram: &[u8],
    a: Piece,
) -> Result<Arrived, Refusal>
    ensures { Came answer_of (arrives_fragment settings a datagram.now (record { peer = whole words.old; store = store.now; second = second.old })) result (record { peer = whole words.new; store = store.now; second = second.new }) }
{
    let lent = Lent::Both {
        store: store.len(),
        second: second.len(),
    };
    gate::ask(words, settings, lent)?;
    let standing = groups::standing(words);
    arrival::arrival_gate(
        SEND_FRAGMENT,
        arrival_of(a),
        settings,
        standing,
        datagram.len(),
    )?;
    let fate = fate_on(words, settings, a);
    keep(words, second, datagram, a, fate);
    reply_of(fate)
}
