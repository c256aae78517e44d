// The incoming half of the damage test: the dispatched list, then those of the channels below the count, each walked over the marks of those before it, the
// lengths that they hold, and the blocks among them.
ghost use Rattle.std.specs.Prelude.{◌≡◌, ◌+◌, ◌*◌, ◌≤◌, ◌<◌, eqb, length, get_or, take, is_some, IfSome};
ghost use Rattle.numbers.specs.Pick.{pick, both};
ghost use Rattle.lists.specs.Rows.{row_at, items_of};
ghost use Rattle.record.specs.Lists.{incoming};
ghost use Rattle.record.specs.Fresh.{no_incoming};
ghost use Rattle.record.specs.Blocks.{is_block};
ghost use Rattle.record.specs.Sizes.{channels};
ghost use Rattle.record.specs.Damage.{held, lengths, blocks, one_block};
ghost use Rattle.places.specs.Whole.{whole, record_length};
ghost use Rattle.gate.specs.CodeHalves.{Passes, Sums, list_bytes, slot_passes, held_sound, in_side};

use crate::narrow;
use places::{RECORD, groups, pools};
use record::INCOMING;

// Where the record has its waiting total; the fragments and the length among a slot's numbers.
const TOTAL: usize = 192;

const FRAGMENTS: usize = 3;

const LENGTH: usize = 5;

// Where a walk stands: the lengths and the blocks so far.
#[derive(Clone, Copy)]
struct Walk {
    total: u32,
    blocks: u32,
}

fn length_at(words: &[u32; RECORD], s: usize) -> u32
    requires { s < incoming }
    ensures { result ≡ (get_or (whole words.now).incoming s no_incoming).length }
{
    words[places::IN_POOL + s * pool::IN_WIDTH + LENGTH]
}

// 1 for a block, 0 for a packet that came whole.
fn block_at(words: &[u32; RECORD], s: usize) -> u32
    requires { s < incoming }
    ensures { result ≡ pick (is_block (get_or (whole words.now).incoming s no_incoming)) 1 0 }
{
    u32::from(words[places::IN_POOL + s * pool::IN_WIDTH + FRAGMENTS] != 0)
}

// A length above its kind's, marks unlike what remains, a channel not below the count, or not that of the channel list it stands in.
fn slot_passes(words: &[u32; RECORD], s: usize, count: u32, own: Option<u32>) -> bool
    ensures { result ≡ slot_passes (whole words.now).marks (whole words.now).incoming count own s }
{
    let slot = pools::incoming_at(words, s);
    let marks = groups::marks(words);
    if !blocks::kind_fit(marks, slot) {
        return false;
    }
    let channel = slot.channel as u32;
    if count <= channel {
        return false;
    }
    match own {
        Some(k) => channel == k,
        None => true,
    }
}

// Not well is a list that is longer than its pool, or that names a slot that does not exist, is marked or does not pass; a slot that passes is marked, its
// length added, and a block counted.
fn list_sound(
    words: &[u32; RECORD],
    at: usize,
    count: u32,
    own: Option<u32>,
    marks: &mut [u8],
    before: Walk,
) -> Option<Walk>
    requires at_bound { at + 13 ≤ record_length }
    requires marks_len { length marks.old ≡ incoming }
    requires total_bound { before.total ≤ channels * list_bytes }
    requires blocks_bound { before.blocks ≤ channels * incoming }
    ensures walks { Passes (slot_passes (whole words.now).marks (whole words.now).incoming count own) incoming marks.old (row_at at incoming words.now) (is_some result) marks.new }
    ensures sums { IfSome result (λ w. Sums (lengths (whole words.now).incoming) list_bytes (items_of (row_at at incoming words.now)) before.total w.total) }
    ensures counts { IfSome result (λ w. Sums (blocks (whole words.now).incoming) incoming (items_of (row_at at incoming words.now)) before.blocks w.blocks) }
{
    let n = narrow(words[at]);
    if INCOMING < n {
        return None;
    }
    let from = at + 1;
    let mut walk = before;
    for cell in &words[from..from + n] {
        let s = narrow(*cell);
        if INCOMING <= s {
            return None;
        }
        if marks[s] == 1 {
            return None;
        }
        if !slot_passes(words, s, count, own) {
            return None;
        }
        walk.total += length_at(words, s);
        walk.blocks += block_at(words, s);
        marks[s] = 1;
    }
    Some(walk)
}

// The channels' lists after the dispatched one; "waiting total not the sum of lengths held"; a second block, or marks with no block.
fn held_sound(words: &[u32; RECORD], count: u32, marks: &mut [u8], before: Walk) -> bool
    requires count_le_channels { count ≤ channels }
    requires marks_len { length marks.old ≡ incoming }
    requires total_le_list_bytes { before.total ≤ list_bytes }
    requires blocks_le_incoming { before.blocks ≤ incoming }
    ensures { result ≡ both (held_sound (whole words.now).marks (whole words.now).incoming count 0 marks.old (take count (whole words.now).channels)) (both (eqb (whole words.now).waiting.total (before.total + lengths (whole words.now).incoming (held (take count (whole words.now).channels)))) (one_block (whole words.now).marks (before.blocks + blocks (whole words.now).incoming (held (take count (whole words.now).channels))))) }
{
    let mut walk = before;
    for k in 0..count {
        let at = places::CHANNELS + k as usize * places::CHANNEL_WIDTH + places::HELD;
        let Some(next) = list_sound(words, at, count, Some(k), marks, walk) else {
            return false;
        };
        walk = next;
    }
    if words[TOTAL] != walk.total {
        return false;
    }
    blocks::one_block(groups::marks(words), walk.blocks)
}

// "a list is longer than its pool, names a slot that does not exist, or a slot stands twice", each slot, the waiting total, and C-11's block.
pub(crate) fn in_side(words: &[u32; RECORD], count: u32) -> bool
    requires { count ≤ channels }
    ensures { result ≡ in_side count (whole words.now) }
{
    let mut marks = [0u8; INCOMING];
    let start = Walk {
        total: 0,
        blocks: 0,
    };
    let Some(first) = list_sound(words, places::DISPATCHED, count, None, &mut marks, start) else {
        return false;
    };
    held_sound(words, count, &mut marks, first)
}
