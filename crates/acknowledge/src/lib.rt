// The acknowledgement: a sample for the round trips, and the command that it names leaves its list.
#![tactic(auto)]

pub mod removal;

ghost use Rattle.std.specs.Prelude.{◌≡◌, length, is_some};
ghost use Rattle.acknowledge.specs.Calls.{heard_in, received, removed_or, answer_of, event_in, heard_at, acknowledges};
ghost use Rattle.cells.specs.Runs.{is_empty};
ghost use Rattle.record.specs.Damage.{used_out};
ghost use Rattle.peer.specs.Outcome.{Came};
ghost use Rattle.places.specs.Whole.{whole, record_length};
ghost use Rattle.acknowledge.specs.Removal.{held_by, command_at};
ghost use Rattle.acknowledge.specs.CodeSearches.{spot_in};
ghost use Rattle.acknowledge.specs.CodeParts.{measured_in, freed_in, timed_in};

use crate::removal::Spot;
use command::bytes::{DISCONNECT, VERIFY_CONNECT};
use numbers::clock;
use numbers::counters::Reliable;
use numbers::refusals::Refusal;
use peer::Peer;
use peer::gate::Lent;
use peer::settings::Settings;
use places::{RECORD, groups};
use queues::{Out, outgoing};
use record::groups::Times;

#[derive(Clone, Copy)]
pub enum Event {
    Passed,
    Done,
    Connect,
    Disconnect,
    DisconnectNow,
}

fn heard_in(state: u32, clock: u32, sent: u16) -> Option<u32>
    ensures { result ≡ heard_in state clock sent }
{
    if state == Peer::DISCONNECTED {
        return None;
    }
    if state == Peer::ZOMBIE {
        return None;
    }
    clock::sample(clock, sent)
}

fn received(times: Times, clock: u32) -> Times
    ensures { result ≡ received clock times }
{
    let mut t = times;
    t.last_receive = 1;
    if clock > 1 {
        t.last_receive = clock;
    }
    t.earliest_timeout = 0;
    t
}

// Done, or 10.
fn removed_or(command: u8, wanted: u8, event: Event) -> Result<Event, Refusal>
    ensures { result ≡ removed_or command wanted event }
{
    if command == wanted {
        return Ok(event);
    }
    Err(Refusal::NotRemoved)
}

// The sample goes into the round trips and the throttle.
fn measure(words: &mut [u32; RECORD], sample: u32, clock: u32)
    ensures { whole words.new ≡ measured_in sample clock (whole words.old) }
{
    let times = groups::times(words);
    let throttling = groups::throttling(words);
    let trips = groups::trips(words);
    let first = times.last_receive == 0;
    let measured = round_trip::averages::measure(throttling, trips, first, sample, clock);
    groups::put_throttling(words, measured.throttling);
    groups::put_trips(words, measured.trips);
}

// The command at this spot leaves its list; the number of the command is the answer.
fn free(words: &mut [u32; RECORD], spot: Option<Spot>, slot: Option<u16>) -> u8
    ensures number { result ≡ command_at (is_some slot) (held_by (whole words.old).outgoing slot) }
    ensures kept { whole words.new ≡ freed_in spot slot (whole words.old) }
{
    let o = removal::held(words, slot);
    let flow = groups::flow(words);
    let carried = removal::flow_without(spot, o, flow);
    groups::put_flow(words, carried);
    removal::leave(words, spot);
    removal::command_at(slot.is_some(), o)
}

// The last receive; and the next timeout, if one was removed, by sent's head then.
fn time(words: &mut [u32; RECORD], removed: bool, clock: u32)
    ensures { whole words.new ≡ timed_in removed clock (whole words.old) }
{
    let head = outgoing::head(words, Out::Sent);
    let h = removal::held(words, head);
    let left = head.is_some();
    let times = groups::times(words);
    let heard = received(times, clock);
    let timed = removal::times_without(removed, left, h, heard);
    groups::put_times(words, timed);
}

// Whether the three outgoing lists are empty.
fn is_empty(words: &[u32; RECORD]) -> bool
    ensures { result ≡ is_empty (used_out (whole words.now).lists) }
{
    if outgoing::count(words, Out::Sent) != 0 {
        return false;
    }
    if outgoing::count(words, Out::Reliable) != 0 {
        return false;
    }
    outgoing::count(words, Out::Outgoing) == 0
}

// By the state as it was.
fn event_in(words: &[u32; RECORD], command: u8) -> Result<Event, Refusal>
    ensures { result ≡ event_in (whole words.now).standing.state command (whole words.now).lists }
{
    let standing = groups::standing(words);
    if standing.state == Peer::ACKNOWLEDGING_CONNECT {
        return removed_or(command, VERIFY_CONNECT, Event::Connect);
    }
    if standing.state == Peer::DISCONNECTING {
        return removed_or(command, DISCONNECT, Event::Disconnect);
    }
    if standing.state != Peer::DISCONNECT_LATER {
        return Ok(Event::Done);
    }
    if is_empty(words) {
        return Ok(Event::DisconnectNow);
    }
    Ok(Event::Done)
}

// A sample taken, and the command removed.
fn heard(
    words: &mut [u32; RECORD],
    sample: u32,
    channel: u8,
    number: Reliable,
    clock: u32,
) -> Result<Event, Refusal>
    ensures { Came answer_of (heard_at (spot_in (whole words.old).outgoing number.0 channel (whole words.old).lists) sample clock (whole words.old)) result (whole words.new) }
{
    measure(words, sample, clock);
    let spot = removal::spot_in(words, number, channel);
    let slot = removal::slot_at(words, spot);
    let command = free(words, spot, slot);
    time(words, slot.is_some(), clock);
    event_in(words, command)
}

// Refused by 11 and 13; passed over; or heard, which may end in 10 with all its effects.
pub fn acknowledge(
    words: &mut [u32; RECORD],
    settings: Settings,
    channel: u8,
    number: Reliable,
    sent: u16,
    clock: u32,
) -> Result<Event, Refusal>
    ensures { Came answer_of (acknowledges settings channel number.0 sent clock (whole words.old)) result (whole words.new) }
{
    gate::ask(words, settings, Lent::Nothing)?;
    let standing = groups::standing(words);
    let trip = heard_in(standing.state, clock, sent);
    let Some(sample) = trip else {
        return Ok(Event::Passed);
    };
    heard(words, sample, channel, number, clock)
}
