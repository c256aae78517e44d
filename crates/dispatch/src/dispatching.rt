// What moves from a channel's list to dispatched.
ghost use Rattle.std.specs.Prelude.{◌≡◌, ◌<◌, ◌≤◌, length};
ghost use Rattle.dispatch.specs.Dispatching.{follows, number_after, ready_count, ready_last};
ghost use Rattle.record.specs.Lists.{in_items};
ghost use Rattle.record.specs.Sizes.{channels};
ghost use Rattle.peer.specs.Updates.{with_unsequenced};
ghost use Rattle.places.specs.Whole.{whole, record_length};
ghost use Rattle.queues.specs.Queues.{held_of};
ghost use Rattle.record.specs.Flags.{flagged};
ghost use Rattle.dispatch.specs.Calls.{dispatched_on};
ghost use Rattle.dispatch.specs.CodeDispatching.{shifted_on};

use numbers::counters::{Reliable, Unreliable};
use places::{RECORD, channels, groups, pools};
use queues::{dispatched, held};
use record::flags::flag_set;
use record::groups::Incoming;

// How many of a list may go, and the number that is then the last.
#[derive(Clone, Copy)]
struct Prefix {
    pub count: usize,
    pub last: Reliable,
}

// Complete, and the next after the last.
fn follows(last: Reliable, slot: Incoming) -> bool
    ensures { result ≡ follows last.0 slot }
{
    if slot.remaining != 0 {
        return false;
    }
    let own = slot.number;
    let next = last.next();
    own.0 == next.0
}

// The number that it leaves: its own, or its last fragment's.
fn number_after(slot: Incoming) -> Reliable
    ensures { result.0 ≡ number_after slot }
{
    let own = slot.number;
    if slot.fragments == 0 {
        return own;
    }
    let more = ((slot.fragments - 1) % 65536) as u16;
    Reliable(std::num::wrapping_add_u16(own.0, more))
}

// How many of channel i's list may go, and the number that is then the last.
fn ready(words: &[u32; RECORD], i: usize, last: Reliable) -> Prefix
    requires { i < channels }
    ensures count { result.count ≡ ready_count (whole words.now).incoming (in_items (held_of (whole words.now) i)) last.0 }
    ensures last { result.last.0 ≡ ready_last (whole words.now).incoming (in_items (held_of (whole words.now) i)) last.0 }
{
    let n = held::count(words, i);
    let mut now = last;
    for k in 0..n {
        let s = held::slot_at(words, i, k);
        let slot = pools::incoming_at(words, s as usize);
        if !follows(now, slot) {
            return Prefix {
                count: k,
                last: now,
            };
        }
        now = number_after(slot);
    }
    Prefix {
        count: n,
        last: now,
    }
}

// The first k of channel i's list join dispatched, where there is room for all of them.
fn shift(words: &mut [u32; RECORD], i: usize, k: usize)
    requires i_lt_channels { i < channels }
    requires k_in_bounds { k ≤ length (in_items (held_of (whole words.old) i)) }
    ensures { whole words.new ≡ shifted_on i k (whole words.old) }
{
    let cells = held::cells(words, i);
    let before = dispatched::count(words);
    dispatched::append(words, &cells, k);
    let after = dispatched::count(words);
    held::cut(words, i, after - before);
}

// Bit 1 of the flags: what joins dispatched sets it.
pub fn flag(words: &mut [u32; RECORD])
    ensures { whole words.new ≡ with_unsequenced (whole words.old) (flagged (whole words.old).unsequenced) }
{
    let flags = groups::flags(words);
    groups::put_flags(words, flag_set(flags));
}

// The records that are complete and follow one another go; nothing changes where there is none.
pub fn dispatch(words: &mut [u32; RECORD], i: usize)
    requires { i < channels }
    ensures { whole words.new ≡ dispatched_on i (whole words.old) }
{
    let own = channels::numbers_of(words, i);
    let r = ready(words, i, own.incoming_reliable);
    if r.count == 0 {
        return;
    }
    let last = r.last;
    shift(words, i, r.count);
    let none = Unreliable(0);
    channels::put_incoming(words, i, last, none);
    flag(words);
}
