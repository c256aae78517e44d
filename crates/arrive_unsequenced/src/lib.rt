// The unsequenced arrival.
#![tactic(auto)]

ghost use Rattle.std.specs.Prelude.{◌≡◌, List, ℕ, length, set};
ghost use Rattle.peer.specs.Outcome.{Came};
ghost use Rattle.peer.specs.Updates.{with_unsequenced, with_arrival};
ghost use Rattle.places.specs.Whole.{whole, record_length};
ghost use Rattle.arrival.specs.Storing.{delivered, awaiting, filled};
ghost use Rattle.arrival.specs.Arrivals.{answer_of, arrived_slot};
ghost use Rattle.arrive_unsequenced.specs.Calls.{judged_on, arrives_unsequenced};

use arrival::{Arrival, Arrived, Fate};
use command::bytes::SEND_UNSEQUENCED;
use numbers::counters::Group;
use numbers::refusals::Refusal;
use peer::gate::Lent;
use peer::settings::Settings;
use places::{RECORD, groups, pools, window};
use queues::dispatched;

// The window as the group leaves it, whatever becomes of the packet; its fate.
fn judge_on(words: &mut [u32; RECORD], settings: Settings, group: Group) -> Fate
    ensures value { result ≡ (judged_on settings group (whole words.old)).fate }
    ensures words_after { whole words.new ≡ with_unsequenced (whole words.old) (judged_on settings group (whole words.old)).unsequenced }
{
    let free = arrival::storing::free_slot(words);
    let standing = groups::standing(words);
    let waiting = groups::waiting(words);
    let room = arrival::room_for(settings, standing.state, waiting.total, free);
    let own = window::unsequenced(words);
    let judged = arrival::judge_window(own, group, room);
    let after = judged.unsequenced;
    window::put_unsequenced(words, after);
    judged.fate
}

// "Stored": in slot s and its cell, to the end of dispatched, its length awaited.
fn deliver(words: &mut [u32; RECORD], store: &mut [u8], s: u16, datagram: &[u8], a: Arrival)
    ensures words_after { whole words.new ≡ with_arrival (whole words.old) (delivered (whole words.old).lists s) (whole words.old).unsequenced (awaiting (whole words.old).waiting a.length) (whole words.old).channels (set (whole words.old).incoming s (arrived_slot a)) }
    ensures store_after { store.new ≡ filled store.old s datagram.now a.place a.length }
{
    let old = groups::waiting(words);
    let kept = arrival::keep(store, s, datagram, a, old);
    let slot = kept.slot;
    let waiting = kept.waiting;
    dispatched::push(words, s);
    pools::put_incoming(words, s as usize, slot);
    groups::put_waiting(words, waiting);
}

// Refused by 11, 13, 9, 6 and 7, in this order; passed over by the window or in state 6; refused by 8, or stored.
pub fn arrive(
    words: &mut [u32; RECORD],
    settings: Settings,
    store: &mut [u8],
    datagram: &[u8],
    a: Arrival,
    group: Group,
) -> Result<Arrived, Refusal>
    ensures { (second : List ℕ) → Came answer_of (arrives_unsequenced settings a group datagram.now (record { peer = whole words.old; store = store.old; second = second })) result (record { peer = whole words.new; store = store.new; second = second }) }
{
    gate::ask(words, settings, Lent::Store(store.len()))?;
    let standing = groups::standing(words);
    arrival::arrival_gate(SEND_UNSEQUENCED, a, settings, standing, datagram.len())?;
    let fate = judge_on(words, settings, group);
    let Fate::Stored(s) = fate else {
        return arrival::reply_of(fate);
    };
    deliver(words, store, s, datagram, a);
    Ok(Arrived::Stored)
}
