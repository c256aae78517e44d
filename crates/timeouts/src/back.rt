// The step on a slot of the lent record, and where the marks send the slots of its sent list.
ghost use Rattle.std.specs.Prelude.{◌≡◌, map, ◌≤◌, length, take, get_or, set};
ghost use Rattle.record.specs.Lists.{outgoing, out_items};
ghost use Rattle.lists.specs.Rows.{low};
ghost use Rattle.record.specs.Fresh.{no_outgoing};
ghost use Rattle.record.specs.Updates.{with_timeout};
ghost use Rattle.peer.specs.Updates.{with_lists, with_outgoing};
ghost use Rattle.places.specs.Whole.{whole, record_length};
ghost use Rattle.overdue.specs.Walking.{sent_of, turn_by, bearing, lists_by};
ghost use Rattle.timeouts.specs.CodeEarly.{early};

use overdue::step;
use overdue::step::{BACK_OUTGOING, BACK_RELIABLE, STAYS, Sent, Walk};
use places::{RECORD, pools};
use queues::{Out, outgoing};
use record::OUTGOING;
use record::groups::Limits;

#[derive(Clone, Copy)]
pub struct Passed {
    pub walk: Walk,
    pub mark: u8,
}

// What the step needs of slot s.
fn sent_at(words: &[u32; RECORD], s: usize) -> Sent
    ensures { result ≡ sent_of (get_or (whole words.now).outgoing s no_outgoing) }
{
    let b = pools::brief_at(words, s);
    Sent {
        sent: b.sent,
        timeout: b.timeout,
        attempts: b.attempts,
        length: b.length,
        packet: b.packet,
    }
}

// How many at the head of the sent list are not due: the walk leaves them as they are.
pub fn early(words: &[u32; RECORD], clock: u32) -> usize
    ensures { result ≡ early clock (whole words.now).outgoing (out_items (whole words.now).lists.sent) }
{
    let n = outgoing::count(words, Out::Sent);
    for j in 0..n {
        let s = outgoing::slot_at(words, Out::Sent, j);
        let o = sent_at(words, s as usize);
        if step::is_due(clock, o) {
            return j;
        }
    }
    n
}

// Slot s gets this timeout, and nothing else of it changes; one that it has is not written again.
fn retime(words: &mut [u32; RECORD], s: usize, o: Sent, timeout: u32)
    requires { o ≡ sent_of (get_or (whole words.old).outgoing s no_outgoing) }
    ensures { whole words.new ≡ with_outgoing (whole words.old) (set (whole words.old).outgoing s (with_timeout (get_or (whole words.old).outgoing s no_outgoing) timeout)) }
{
    if timeout == o.timeout {
        return;
    }
    pools::put_attempt(words, s, o.sent, timeout, o.attempts);
}

// The step on a slot: its timeout changes, and nothing else of it.
pub fn turn(words: &mut [u32; RECORD], limits: Limits, clock: u32, walk: Walk, s: usize) -> Passed
    ensures walk { result.walk ≡ (turn_by limits clock walk (get_or (whole words.old).outgoing s no_outgoing)).walk }
    ensures mark { result.mark ≡ (turn_by limits clock walk (get_or (whole words.old).outgoing s no_outgoing)).mark }
    ensures slot { whole words.new ≡ with_outgoing (whole words.old) (set (whole words.old).outgoing s (turn_by limits clock walk (get_or (whole words.old).outgoing s no_outgoing)).slot) }
{
    let o = sent_at(words, s);
    let r = step::step_by(limits, clock, walk, o);
    let w = r.walk;
    retime(words, s, o, r.timeout);
    Passed {
        walk: w,
        mark: r.mark,
    }
}

// The slots of the sent list that bear a mark, in their order, into cells that are lent. Answers how many.
fn gather(words: &[u32; RECORD], marks: &[u8], mark: u8, cells: &mut [u32]) -> usize
    requires marks_len { length marks.now ≡ outgoing }
    requires cells_len { length cells.old ≡ outgoing }
    ensures slots { map low (take result cells.new) ≡ bearing mark marks.now (out_items (whole words.now).lists.sent) }
    ensures fits { result ≤ outgoing }
{
    let mut m: usize = 0;
    for k in 0..outgoing::count(words, Out::Sent) {
        if marks[k] == mark {
            cells[m] = outgoing::slot_at(words, Out::Sent, k) as u32;
            m += 1;
        }
    }
    m
}

// What stays is sent; the others go before what stood in their list.
pub fn send_back(words: &mut [u32; RECORD], marks: &[u8])
    requires { length marks.now ≡ outgoing }
    ensures { whole words.new ≡ with_lists (whole words.old) (lists_by marks.now (whole words.old).lists) }
{
    let mut cells = [0u32; OUTGOING];
    let packets = gather(words, marks, BACK_RELIABLE, &mut cells);
    outgoing::prepend(words, Out::Reliable, &cells, packets);
    let others = gather(words, marks, BACK_OUTGOING, &mut cells);
    outgoing::prepend(words, Out::Outgoing, &cells, others);
    let kept = gather(words, marks, STAYS, &mut cells);
    outgoing::replace(words, Out::Sent, &cells, kept);
}
