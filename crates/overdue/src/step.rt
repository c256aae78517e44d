// One sent command, by value: the source's tests in the source's order.
ghost use Rattle.std.specs.Prelude.{◌≡◌};
ghost use Rattle.overdue.specs.Overdue.{is_due, earliest_by, is_given_up, next_by, goes_back, stays_in, due_by, step_by};

use numbers::{clock, wrapping};
use record::groups::Limits;

// What the step needs of a sent command.
#[derive(Clone, Copy)]
pub struct Sent {
    pub sent: u32,
    pub timeout: u32,
    pub attempts: u16,
    pub length: u16,
    pub packet: bool,
}

// The numbers that the walk carries; whether one was kept in sent, one went back, the peer was given up.
#[derive(Clone, Copy)]
pub struct Walk {
    pub earliest: u32,
    pub next: u32,
    pub lost: u32,
    pub transit: u32,
    pub kept: bool,
    pub back: bool,
    pub over: bool,
}

// The numbers after one command, its timeout, and the mark of what becomes of it.
#[derive(Clone, Copy)]
pub struct After {
    pub walk: Walk,
    pub timeout: u32,
    pub mark: u8,
}

// It stays in sent, or goes back to outgoing or to send-reliable.
pub const STAYS: u8 = 0;

pub const BACK_OUTGOING: u8 = 1;

pub const BACK_RELIABLE: u8 = 2;

pub fn is_due(clock: u32, o: Sent) -> bool
    ensures { result ≡ is_due clock o }
{
    o.timeout <= clock::distance(clock, o.sent)
}

// Taken over where it is 0 or not before the sent time.
fn earliest_by(earliest: u32, sent: u32) -> u32
    ensures { result ≡ earliest_by earliest sent }
{
    if earliest == 0 {
        return sent;
    }
    let past = std::num::wrapping_sub_u32(sent, earliest);
    if clock::OVERFLOW <= past {
        return sent;
    }
    earliest
}

fn is_given_up(limits: Limits, clock: u32, earliest: u32, attempts: u16) -> bool
    ensures { result ≡ is_given_up limits clock earliest attempts }
{
    if earliest == 0 {
        return false;
    }
    let apart = clock::distance(clock, earliest);
    if limits.maximum <= apart {
        return true;
    }
    if !wrapping::reaches(attempts, limits.timeout) {
        return false;
    }
    limits.minimum <= apart
}

// The head of sent, where one went back before it and none was kept, says the next timeout.
fn next_by(walk: Walk, o: Sent) -> u32
    ensures { result ≡ next_by walk o }
{
    if !walk.back {
        return walk.next;
    }
    if walk.kept {
        return walk.next;
    }
    std::num::wrapping_add_u32(o.sent, o.timeout)
}

fn stays_in(walk: Walk, o: Sent) -> After
    ensures { result ≡ stays_in walk o }
{
    After {
        walk,
        timeout: o.timeout,
        mark: STAYS,
    }
}

// Counted lost, and sent again with twice its timeout.
fn goes_back(walk: Walk, next: u32, earliest: u32, o: Sent) -> After
    ensures { result ≡ goes_back walk next earliest o }
{
    let mut w = walk;
    w.earliest = earliest;
    w.next = next;
    w.lost = std::num::wrapping_add_u32(walk.lost, 1);
    w.back = true;
    let timeout = wrapping::double(o.timeout);
    if !o.packet {
        return After {
            walk: w,
            timeout,
            mark: BACK_OUTGOING,
        };
    }
    w.transit = std::num::wrapping_sub_u32(walk.transit, o.length as u32);
    After {
        walk: w,
        timeout,
        mark: BACK_RELIABLE,
    }
}

fn due_by(limits: Limits, clock: u32, walk: Walk, o: Sent) -> After
    ensures { result ≡ due_by limits clock walk o }
{
    let next = next_by(walk, o);
    let earliest = earliest_by(walk.earliest, o.sent);
    if !is_given_up(limits, clock, earliest, o.attempts) {
        return goes_back(walk, next, earliest, o);
    }
    let mut w = walk;
    w.earliest = earliest;
    w.next = next;
    w.kept = true;
    w.over = true;
    stays_in(w, o)
}

// Once given up, nothing more is looked at.
pub fn step_by(limits: Limits, clock: u32, walk: Walk, o: Sent) -> After
    ensures { result ≡ step_by limits clock walk o }
{
    if walk.over {
        return stays_in(walk, o);
    }
    if is_due(clock, o) {
        return due_by(limits, clock, walk, o);
    }
    let mut w = walk;
    w.next = next_by(walk, o);
    w.kept = true;
    stays_in(w, o)
}
