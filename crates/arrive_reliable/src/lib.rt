// The arrival of a whole reliable packet, added by the port.
#![tactic(auto)]

pub mod holding;

ghost use Rattle.std.specs.Prelude.{◌≡◌, ℕ, ◌<◌, List, length};
ghost use Rattle.arrive_reliable.specs.Calls.{fate_of, fate_on, arrives_reliable};
ghost use Rattle.record.specs.Sizes.{channels};
ghost use Rattle.peer.specs.Outcome.{Came};
ghost use Rattle.places.specs.Whole.{whole, record_length};
ghost use Rattle.arrival.specs.Arrivals.{answer_of};
ghost use Rattle.arrive_reliable.specs.CodeSettling.{settled_on};

use arrival::{Arrival, Arrived, Fate};
use command::bytes::SEND_RELIABLE;
use numbers::counters::Reliable;
use numbers::refusals::Refusal;
use peer::gate::Lent;
use peer::settings::Settings;
use places::{RECORD, groups, pools};
use record::groups::{Incoming, Waiting};

// Room says what becomes of one that is not passed over by its number.
fn fate_of(passed: bool, room: Fate) -> Fate
    ensures { result ≡ fate_of passed room }
{
    if passed {
        return Fate::Passed;
    }
    room
}

// What becomes of one that nothing refuses before 8.
fn fate_on(words: &[u32; RECORD], settings: Settings, a: Arrival) -> Fate
    requires { a.channel < channels }
    ensures { result ≡ fate_on settings a (whole words.now) }
{
    let standing = groups::standing(words);
    let waiting = groups::waiting(words);
    let free = arrival::storing::free_slot(words);
    let room = arrival::room_for(settings, standing.state, waiting.total, free);
    let passed = holding::is_passed(words, a.channel as usize, a.number);
    fate_of(passed, room)
}

// Slot s joins channel i's list in the place of its number, and what is ready then joins dispatched.
fn settle(
    words: &mut [u32; RECORD],
    i: usize,
    number: Reliable,
    s: u16,
    slot: Incoming,
    waiting: Waiting,
)
    requires { i < channels }
    ensures { whole words.new ≡ settled_on i number.0 s slot waiting (whole words.old) }
{
    holding::hold(words, i, number, s);
    pools::put_incoming(words, s as usize, slot);
    groups::put_waiting(words, waiting);
    dispatch::dispatching::dispatch(words, i);
}

// Refused by 11, 13, 9, 6 and 7, in this order; passed over by its number or in state 6; refused by 8, or stored.
pub fn arrive(
    words: &mut [u32; RECORD],
    settings: Settings,
    store: &mut [u8],
    datagram: &[u8],
    a: Arrival,
) -> Result<Arrived, Refusal>
    ensures { (second : List ℕ) → Came answer_of (arrives_reliable settings a datagram.now (record { peer = whole words.old; store = store.old; second = second })) result (record { peer = whole words.new; store = store.new; second = second }) }
{
    gate::ask(words, settings, Lent::Store(store.len()))?;
    let standing = groups::standing(words);
    arrival::arrival_gate(SEND_RELIABLE, a, settings, standing, datagram.len())?;
    let fate = fate_on(words, settings, a);
    let Fate::Stored(s) = fate else {
        return arrival::reply_of(fate);
    };
    let before = groups::waiting(words);
    let kept = arrival::keep(store, s, datagram, a, before);
    let slot = kept.slot;
    let waiting = kept.waiting;
    settle(words, a.channel as usize, a.number, s, slot, waiting);
    Ok(Arrived::Stored)
}
