// Where the record holds a block: the unfinished one of a channel, by its start; any at all.
ghost use Rattle.std.specs.Prelude.{◌≡◌, not, ◌+◌, ◌≤◌, ◌<◌, eqb, length};
ghost use Rattle.lists.specs.Rows.{row_at, items_of};
ghost use Rattle.record.specs.Lists.{incoming, in_items};
ghost use Rattle.record.specs.Sizes.{channels};
ghost use Rattle.record.specs.Damage.{below, held, blocks};
ghost use Rattle.places.specs.Whole.{whole, record_length};
ghost use Rattle.queues.specs.Queues.{held_of};
ghost use Rattle.arrive_fragment.specs.Pieces.{is_unfinished, unfinished, any_block};

use numbers::counters::Reliable;
use places::{RECORD, groups, pools};
use record::INCOMING;
use record::groups::{CHANNELS, Incoming};

fn is_unfinished(start: Reliable, slot: Incoming) -> bool
    ensures { result ≡ is_unfinished start.0 slot }
{
    if !blocks::is_block(slot) {
        return false;
    }
    if slot.remaining == 0 {
        return false;
    }
    let own = slot.number;
    own.0 == start.0
}

// The slot of channel i's unfinished block, if it has that start.
pub fn unfinished(words: &[u32; RECORD], i: usize, start: Reliable) -> Option<u16>
    requires { i < channels }
    ensures { result ≡ unfinished (whole words.now).incoming (in_items (held_of (whole words.now) i)) start.0 }
{
    for k in 0..queues::held::count(words, i) {
        let s = queues::held::slot_at(words, i, k);
        let slot = pools::incoming_at(words, s as usize);
        if is_unfinished(start, slot) {
            return Some(s);
        }
    }
    None
}

// Whether the list at a place names a block.
fn block_in(words: &[u32; RECORD], at: usize) -> bool
    requires { at + incoming + 1 ≤ record_length }
    ensures { result ≡ not (eqb (blocks (whole words.now).incoming (items_of (row_at at incoming words.now))) 0) }
{
    for k in 0..lists::count(words, at, INCOMING) {
        let s = lists::slot_at(words, at, INCOMING, k);
        let slot = pools::incoming_at(words, s as usize);
        if blocks::is_block(slot) {
            return true;
        }
    }
    false
}

// Whether a channel below the count holds one.
fn block_held(words: &[u32; RECORD], count: u32) -> bool
    ensures { result ≡ not (eqb (blocks (whole words.now).incoming (held (below (whole words.now).channels count))) 0) }
{
    for k in 0..CHANNELS.min(count as usize) {
        if block_in(
            words,
            places::CHANNELS + k * places::CHANNEL_WIDTH + places::HELD,
        ) {
            return true;
        }
    }
    false
}

// Whether a block is held or dispatched.
pub fn any_block(words: &[u32; RECORD]) -> bool
    ensures { result ≡ any_block (whole words.now) }
{
    if block_in(words, places::DISPATCHED) {
        return true;
    }
    let standing = groups::standing(words);
    block_held(words, standing.channels)
}
