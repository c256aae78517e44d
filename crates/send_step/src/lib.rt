// The send step: the head of a list is sent.
#![tactic(auto)]

pub mod heads;

ghost use Rattle.std.specs.Prelude.{◌≡◌, length, slice_set};
ghost use Rattle.cells.specs.Runs.{first};
ghost use Rattle.record.specs.Lists.{out_items};
ghost use Rattle.peer.specs.Outcome.{Came};
ghost use Rattle.peer.specs.Updates.{with_times, with_loss, with_flow, with_lists, with_outgoing};
ghost use Rattle.places.specs.Whole.{whole, record_length};
ghost use Rattle.send_step.specs.Steps.{list_of, lists_sent, flow_sent, times_sent, packet_sent, head};
ghost use Rattle.send_step.specs.Calls.{answer_of, steps, Named};
ghost use Rattle.send_step.specs.Names.{out_for};

use crate::heads::Queue;
use numbers::refusals::Refusal;
use peer::gate::Lent;
use peer::settings::Settings;
use places::{RECORD, groups, pools};
use queues::{Out, outgoing};
use record::groups::Outgoing;

fn out_for(q: Queue) -> Out
    ensures { result ≡ out_for q }
{
    match q {
        Queue::Outgoing => Out::Outgoing,
        Queue::Reliable => Out::Reliable,
    }
}

// The slot at the head of its list.
fn first_of(words: &[u32; RECORD], q: Queue) -> Option<u16>
    ensures { result ≡ first (out_items (list_of q (whole words.now).lists)) }
{
    let list = out_for(q);
    outgoing::head(words, list)
}

// One more attempt for slot s.
fn attempt(words: &mut [u32; RECORD], s: usize, time: u32) -> Outgoing
    ensures out { result ≡ head (whole words.old) s time }
    ensures kept { whole words.new ≡ with_outgoing (whole words.old) (slice_set (whole words.old).outgoing s result) }
{
    let slot = pools::outgoing_at(words, s);
    let trips = groups::trips(words);
    let o = heads::attempted(slot, trips, time);
    pools::put_attempt(words, s, o.sent, o.timeout, o.attempts);
    o
}

// Packets sent + 1.
fn count(words: &mut [u32; RECORD])
    ensures { whole words.new ≡ with_loss (whole words.old) (packet_sent (whole words.old).loss) }
{
    let loss = groups::loss(words);
    let counted = heads::packet_sent(loss);
    groups::put_loss(words, counted);
}

// If nothing was sent before, the next timeout is this acknowledged one's.
fn time(words: &mut [u32; RECORD], o: Outgoing)
    ensures { whole words.new ≡ with_times (whole words.old) (times_sent (whole words.old).times (out_items (whole words.old).lists.sent) o) }
{
    if !heads::is_acknowledged(o) {
        return;
    }
    if outgoing::count(words, Out::Sent) != 0 {
        return;
    }
    let mut times = groups::times(words);
    times.next_timeout = std::num::wrapping_add_u32(o.sent, o.timeout);
    groups::put_times(words, times);
}

// In transit grows by an acknowledged packet's piece length.
fn carry(words: &mut [u32; RECORD], o: Outgoing)
    ensures { whole words.new ≡ with_flow (whole words.old) (flow_sent (whole words.old).flow o) }
{
    let flow = groups::flow(words);
    let carried = heads::flow_sent(flow, o);
    groups::put_flow(words, carried);
}

// The head leaves its list; acknowledged, it joins sent, and else its slot is free.
fn move_on(words: &mut [u32; RECORD], q: Queue, s: u16, o: Outgoing)
    ensures { whole words.new ≡ with_lists (whole words.old) (lists_sent q (whole words.old).lists s o) }
{
    let list = out_for(q);
    outgoing::remove(words, list, 0);
    if heads::is_acknowledged(o) {
        outgoing::push(words, Out::Sent, s);
    }
}

// Refused by 11 and 13; nothing to send, or the head after its changes.
pub fn step(
    words: &mut [u32; RECORD],
    settings: Settings,
    q: Queue,
    time: u32,
) -> Result<Option<Outgoing>, Refusal>
    ensures came { Came answer_of (steps settings q time (whole words.old)) result (whole words.new) }
    ensures named { Named result }
{
    gate::ask(words, settings, Lent::Nothing)?;
    let first = first_of(words, q);
    let Some(s) = first else {
        return Ok(None);
    };
    let o = attempt(words, s as usize, time);
    count(words);
    self::time(words, o);
    carry(words, o);
    move_on(words, q, s, o);
    Ok(Some(o))
}
