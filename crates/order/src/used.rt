// Which slots the lists name.
ghost use Rattle.std.specs.Prelude.{◌≡◌, ◌+◌, ◌≤◌, length};
ghost use Rattle.cells.specs.Runs.{has};
ghost use Rattle.lists.specs.Rows.{row_at, items_of};
ghost use Rattle.record.specs.Damage.{below, held as held_by};
ghost use Rattle.places.specs.Whole.{whole, record_length};
ghost use Rattle.order.specs.Table.{used_outgoing, used_incoming};

use crate::parts::COUNT;
use numbers::widths::low16;
use places::{CHANNEL_WIDTH, CHANNELS, DISPATCHED, HELD, OUTGOING, RECORD, RELIABLE, SENT};
use record::groups::CHANNELS as ALL;
use record::{INCOMING, OUTGOING as CELLS};

// Whether the list at a place names slot s.
fn names(words: &[u32], at: usize, size: usize, s: usize) -> bool
    requires { at + size + 1 ≤ length words.now }
    ensures { result ≡ has (items_of (row_at at size words.now)) s }
{
    let n = lists::count(words, at, size);
    let from = at + 1;
    words[from..from + n]
        .iter()
        .any(|x| low16(*x) as usize == s)
}

// Whether an outgoing slot is used.
pub fn outgoing(words: &[u32; RECORD], s: usize) -> bool
    ensures { result ≡ used_outgoing (whole words.now) s }
{
    names(words, SENT, CELLS, s)
        || names(words, RELIABLE, CELLS, s)
        || names(words, OUTGOING, CELLS, s)
}

// Whether the list of a channel below the count names slot s.
fn held(words: &[u32; RECORD], s: usize) -> bool
    ensures { result ≡ has (held_by (below (whole words.now).channels (whole words.now).standing.channels)) s }
{
    let count = (words[COUNT] as usize).min(ALL);
    for c in 0..count {
        if names(words, CHANNELS + c * CHANNEL_WIDTH + HELD, INCOMING, s) {
            return true;
        }
    }
    false
}

// Whether an incoming slot is used: by the dispatched ones, or by a channel below the count.
pub fn incoming(words: &[u32; RECORD], s: usize) -> bool
    ensures { result ≡ used_incoming (whole words.now) s }
{
    names(words, DISPATCHED, INCOMING, s) || held(words, s)
}
