// The timeout check: one walk over the sent list, oldest first.
#![tactic(auto)]

pub mod back;

ghost use Rattle.std.specs.Prelude.{◌≡◌, length, take, replicate};
ghost use Rattle.timeouts.specs.Calls.{reply_by, answer_of, walk_of, checks};
ghost use Rattle.numbers.specs.Pick.{pick};
ghost use Rattle.record.specs.Lists.{outgoing, out_items};
ghost use Rattle.record.specs.Updates.{with_timeouts, with_packets_lost, with_transit};
ghost use Rattle.peer.specs.Outcome.{Came};
ghost use Rattle.peer.specs.Updates.{with_checked, with_lists, with_outgoing};
ghost use Rattle.places.specs.Whole.{whole, record_length};
ghost use Rattle.overdue.specs.Overdue.{stays};
ghost use Rattle.overdue.specs.Walking.{at_entry, lists_by};
ghost use Rattle.timeouts.specs.CodeEarly.{begun};

use crate::back::{early, send_back, turn};
use numbers::refusals::Refusal;
use overdue::step::Walk;
use overdue::turn::at_entry;
use peer::gate::Lent;
use peer::settings::Settings;
use places::{RECORD, groups};
use queues::{Out, outgoing};
use record::OUTGOING;

#[derive(Clone, Copy)]
pub enum Checked {
    Done,
    Disconnect,
}

fn reply_by(over: bool) -> Checked
    ensures { result ≡ reply_by over }
{
    if over {
        return Checked::Disconnect;
    }
    Checked::Done
}

// The numbers that the walk begins with, behind k that are kept.
fn begin(words: &[u32; RECORD], k: usize) -> Walk
    ensures { result ≡ begun k (at_entry (whole words.now).times (whole words.now).loss (whole words.now).flow) }
{
    let mut w = at_entry(
        groups::times(words),
        groups::loss(words),
        groups::flow(words),
    );
    w.kept = 0 < k;
    w
}

// The numbers that the walk ends with; a mark for each slot of the sent list is written.
fn walk(words: &mut [u32; RECORD], clock: u32, marks: &mut [u8]) -> Walk
    requires { marks.old ≡ replicate outgoing stays }
    ensures walk { result ≡ (walk_of clock (whole words.old)).walk }
    ensures marks { take (length (out_items (whole words.old).lists.sent)) marks.new ≡ (walk_of clock (whole words.old)).marks }
    ensures slots { whole words.new ≡ with_outgoing (whole words.old) (walk_of clock (whole words.old)).slots }
{
    let limits = groups::limits(words);
    let n = outgoing::count(words, Out::Sent);
    let from = early(words, clock);
    let mut w = begin(words, from);
    for j in from..n {
        let s = outgoing::slot_at(words, Out::Sent, j);
        let t = turn(words, limits, clock, w, s as usize);
        marks[j] = t.mark;
        w = t.walk;
    }
    w
}

// Where one went back: what stays is sent, the others go before what stood in their list.
fn divide(words: &mut [u32; RECORD], back: bool, marks: &[u8])
    requires { length marks.now ≡ outgoing }
    ensures { whole words.new ≡ pick back (with_lists (whole words.old) (lists_by marks.now (whole words.old).lists)) (whole words.old) }
{
    if back {
        send_back(words, marks);
    }
}

// Times, loss and flow get the walk's numbers.
fn settle(words: &mut [u32; RECORD], w: Walk)
    ensures { whole words.new ≡ with_checked (whole words.old) (with_timeouts (whole words.old).times w.next w.earliest) (with_packets_lost (whole words.old).loss w.lost) (with_transit (whole words.old).flow w.transit) (whole words.old).lists (whole words.old).outgoing }
{
    let mut times = groups::times(words);
    let mut loss = groups::loss(words);
    let mut flow = groups::flow(words);
    times.next_timeout = w.next;
    times.earliest_timeout = w.earliest;
    loss.lost = w.lost;
    flow.transit = w.transit;
    groups::put_times(words, times);
    groups::put_loss(words, loss);
    groups::put_flow(words, flow);
}

// Refused by 11 and 13.
pub fn check(words: &mut [u32; RECORD], settings: Settings, clock: u32) -> Result<Checked, Refusal>
    ensures { Came answer_of (checks settings clock (whole words.old)) result (whole words.new) }
{
    gate::ask(words, settings, Lent::Nothing)?;
    let mut marks = [0u8; OUTGOING];
    let w = walk(words, clock, &mut marks);
    divide(words, w.back, &marks);
    settle(words, w);
    Ok(reply_by(w.over))
}
