// Blocks that come in pieces, C-11: the marks of the pieces that are stored, what a piece's fields may be, the slot of a block. On two words and a slot.
#![tactic(auto)]

ghost use Rattle.std.specs.Prelude.{◌≡◌, ◌-◌, ◌==◌};
ghost use Rattle.record.specs.Marks.{most_pieces, piece_marked, with_piece, marked_from, marked_count};
ghost use Rattle.record.specs.Blocks.{is_block, block_fit};
ghost use Rattle.record.specs.Damage.{kind_fit, one_block};
ghost use Rattle.blocks.specs.Blocks.{fields_fit, like_first, block_of, one_less};

use command::fields::Fragment;
use numbers::bits;
use numbers::counters::Reliable;
use record::groups::{CELL, Incoming, Marks};

// "count is 1 to 64"
pub const PIECES: u32 = 64;

// "A block of up to 32,768 bytes"
pub const BYTES: u32 = 32768;

// The pieces of a word.
const WORD: u32 = 32;

pub fn piece_marked(m: Marks, k: u32) -> bool
    ensures { result ≡ piece_marked m k }
{
    if k < WORD {
        return bits::is_set(m.low, k);
    }
    if k < PIECES {
        return bits::is_set(m.high, k - WORD);
    }
    false
}

// The marks with piece k; the same marks where there is no piece k.
pub fn with_piece(m: Marks, k: u32) -> Marks
    ensures { result ≡ with_piece m k }
{
    let mut marks = m;
    if k < WORD {
        marks.low = bits::set(m.low, k);
        return marks;
    }
    if k < PIECES {
        marks.high = bits::set(m.high, k - WORD);
    }
    marks
}

// How many pieces are marked.
pub fn marked_count(m: Marks) -> u32
    ensures { result ≡ marked_count m }
{
    u32::count_ones(m.low) + u32::count_ones(m.high)
}

// Whether no piece from piece k on is marked.
fn none_from(m: Marks, k: u32) -> bool
    ensures { result ≡ (marked_from m k (most_pieces - k) == 0) }
{
    if k < WORD {
        if m.high != 0 {
            return false;
        }
        return m.low >> k == 0;
    }
    if k < PIECES {
        return m.high >> (k - WORD) == 0;
    }
    true
}

// Else 14. The maximum packet size is a setting.
pub fn fields_fit(packet: u32, f: Fragment) -> bool
    ensures { result ≡ fields_fit packet f }
{
    if f.count < 1 {
        return false;
    }
    if PIECES < f.count {
        return false;
    }
    if f.count <= f.number {
        return false;
    }
    if BYTES < f.total {
        return false;
    }
    if packet < f.total {
        return false;
    }
    if f.total <= f.offset {
        return false;
    }
    f.length as u32 <= f.total - f.offset
}

// Else 14, for a later piece.
pub fn like_first(f: Fragment, slot: Incoming) -> bool
    ensures { result ≡ like_first f slot }
{
    if f.count != slot.fragments {
        return false;
    }
    f.total == slot.length
}

pub fn is_block(slot: Incoming) -> bool
    ensures { result ≡ is_block slot }
{
    slot.fragments != 0
}

// The slot of a block before any piece is marked.
pub fn block_of(byte: u8, channel: u8, start: Reliable, f: Fragment) -> Incoming
    ensures { result ≡ block_of byte channel start f }
{
    Incoming {
        byte,
        channel,
        number: start,
        fragments: f.count,
        remaining: f.count,
        length: f.total,
    }
}

// The slot with a piece more stored.
pub fn one_less(slot: Incoming) -> Incoming
    ensures { result ≡ one_less slot }
{
    let mut s = slot;
    s.remaining = std::num::wrapping_sub_u32(slot.remaining, 1);
    s
}

// Whether a block's numbers and marks belong together: else 13.
pub fn block_fit(m: Marks, slot: Incoming) -> bool
    ensures { result ≡ block_fit m slot }
{
    if PIECES < slot.fragments {
        return false;
    }
    if slot.length < 1 {
        return false;
    }
    if BYTES < slot.length {
        return false;
    }
    if slot.fragments < slot.remaining {
        return false;
    }
    if marked_count(m) != slot.fragments - slot.remaining {
        return false;
    }
    none_from(m, slot.fragments)
}

// A block's numbers and marks belong together; a packet that came whole fits its cell.
pub fn kind_fit(m: Marks, slot: Incoming) -> bool
    ensures { result ≡ kind_fit m slot }
{
    if is_block(slot) {
        return block_fit(m, slot);
    }
    slot.length <= CELL
}

// Of so many blocks: one at most, and no mark without one.
pub fn one_block(m: Marks, n: u32) -> bool
    ensures { result ≡ one_block m n }
{
    if n != 0 {
        return n == 1;
    }
    if m.low != 0 {
        return false;
    }
    m.high == 0
}
