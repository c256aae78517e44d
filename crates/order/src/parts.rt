// The places of each part of the record: its own numbers, a list, a channel, a slot of either pool.
ghost use Rattle.std.specs.Prelude.{◌≡◌, ◌+◌, ◌*◌, ◌≤◌, ◌<◌, [], ◌∷◌, ltb, length, get_or};
ghost use Rattle.lists.specs.Rows.{row_at, len_of, cells_of};
ghost use Rattle.record.specs.Lists.{outgoing, incoming};
ghost use Rattle.record.specs.Fresh.{no_outgoing, no_incoming};
ghost use Rattle.record.specs.Sizes.{channels};
ghost use Rattle.places.specs.Whole.{whole, record_length};
ghost use Rattle.places.specs.Updates.{channel_at};
ghost use Rattle.order.specs.Table.{nowhere, numbered, own_bits, own_row, group_bits, group_row, list_places, channel_places, slot_places, in_slot_places, marks_row, slot_bits, used_outgoing, used_incoming};
ghost use Rattle.order.specs.CodeCuts.{cut_place, field_from, command_place};

use crate::{Place, kinds, used};
use command::layout;
use numbers::widths::low16;
use places::{CHANNEL_WIDTH, CHANNELS, HELD, IN_POOL, MARKS, POOL, RECORD};
use pool::{IN_WIDTH, WIDTH};
use record::INCOMING;

// Where the record has its connect id, its state and its channel count, its outgoing reliable number, and its flags, which follow the lists.
const CONNECT: usize = 2;

const STATE: usize = 5;

const RELIABLE: usize = 42;

pub(crate) const COUNT: usize = 6;

pub(crate) const FLAGS: usize = 155;

// An outgoing slot's own numbers; its kind is its last.
const OWN: usize = 9;

const KIND: usize = 25;

// The numbers up to the outgoing reliable number: two peer ids, the connect id, two session ids, the others.
pub(crate) fn own(words: &[u32; RECORD], j: usize) -> Place
    requires { j < 43 }
    ensures { result ≡ get_or (numbered own_bits (own_row (whole words.now))) j nowhere }
{
    let x = words[j];
    if j < CONNECT {
        return kinds::short(x);
    }
    if j <= CONNECT {
        return kinds::long(x);
    }
    if j < STATE {
        return kinds::byte(x);
    }
    if j < RELIABLE {
        return kinds::long(x);
    }
    kinds::short(x)
}

// Flags, reserved and the two groups, then the words, event data, waiting total and host count.
pub(crate) fn group(words: &[u32; RECORD], j: usize) -> Place
    requires { j < 39 }
    ensures { result ≡ get_or (numbered group_bits (group_row (whole words.now).unsequenced (whole words.now).waiting)) j nowhere }
{
    let x = words[FLAGS + j];
    if j < 4 {
        return kinds::short(x);
    }
    kinds::long(x)
}

// A list of so many cells: its length, then its slots.
pub(crate) fn list(words: &[u32], at: usize, size: usize, j: usize) -> Place
    requires size_in_bounds { at + size + 1 ≤ length words.now }
    requires j_le_size { j ≤ size }
    requires size_bound { size < 65536 }
    ensures { result ≡ get_or (list_places size (len_of (row_at at size words.now)) (cells_of (row_at at size words.now))) j nowhere }
{
    let n = low16(words[at]) as usize;
    let x = words[at + j];
    if j == 0 {
        return kinds::length_of(size as u32, x);
    }
    let is_written = j <= n;
    kinds::written_if(is_written, kinds::short(x))
}

// A channel: its four numbers, its list.
pub(crate) fn channel(words: &[u32; RECORD], c: usize, j: usize) -> Place
    requires c_lt_channels { c < channels }
    requires j_bound { j < 17 }
    ensures { result ≡ get_or (channel_places (ltb c (whole words.now).standing.channels) (channel_at (whole words.now) c)) j nowhere }
{
    let at = CHANNELS + c * CHANNEL_WIDTH;
    let is_written = c < words[COUNT] as usize;
    if j < HELD {
        return kinds::written_if(is_written, kinds::short(words[at + j]));
    }
    kinds::written_if(is_written, list(words, at + HELD, INCOMING, j - HELD))
}

// A number of an outgoing slot before its command.
fn slot_number(j: usize, x: u32) -> Place
    requires { j < 9 }
    ensures { result ≡ cut_place (get_or (slot_bits 1) j 0) x }
{
    match j {
        0 | 1 | 6 | 7 => kinds::short(x),
        2..=5 => kinds::long(x),
        _ => kinds::flag(x),
    }
}

// A number of a command, by the bytes that its struct has for it; past the last field there is none.
fn field(bytes: usize, x: u32) -> Place
    requires { (bytes ≤ 4) × (bytes ≡ 3 → ⊥) }
    ensures { result ≡ cut_place (8 * bytes) x }
{
    match bytes {
        0 => kinds::none(),
        1 => kinds::byte(x),
        2 => kinds::short(x),
        _ => kinds::long(x),
    }
}

// A field of a kind that is none reads 0.
fn field_from(kind: u32, j: usize, x: u32) -> u32
    ensures { result ≡ field_from kind j x }
{
    if j < 3 {
        return x;
    }
    match kind {
        1..=12 => x,
        _ => 0,
    }
}

// Number j of a command of a kind: the byte, the channel, the number, then the fields.
fn command(kind: u32, j: usize, x: u32) -> Place
    requires { j < 16 }
    ensures { result ≡ command_place kind j x }
{
    let bytes = layout::width_of(pool::kind_from(kind), j);
    let e = field(bytes, field_from(kind, j, x));
    if j == 0 {
        return kinds::as_command(e);
    }
    kinds::written_if(0 < bytes, e)
}

// An outgoing slot: nine numbers, its command, and its kind, which is never written.
pub(crate) fn outgoing(words: &[u32; RECORD], s: usize, j: usize) -> Place
    requires s_lt_outgoing { s < outgoing }
    requires j_bound { j < 26 }
    ensures { result ≡ get_or (slot_places (used_outgoing (whole words.now) s) (get_or (whole words.now).outgoing s no_outgoing)) j nowhere }
{
    let at = POOL + s * WIDTH;
    let x = words[at + j];
    let is_used = used::outgoing(words, s);
    if j < OWN {
        return kinds::written_if(is_used, slot_number(j, x));
    }
    if j == KIND {
        return kinds::written_if(false, kinds::byte(x));
    }
    kinds::written_if(is_used, command(words[at + KIND], j - OWN, x))
}

// An incoming slot.
pub(crate) fn incoming(words: &[u32; RECORD], s: usize, j: usize) -> Place
    requires s_lt_incoming { s < incoming }
    requires j_bound { j < 6 }
    ensures { result ≡ get_or (in_slot_places (used_incoming (whole words.now) s) (get_or (whole words.now).incoming s no_incoming)) j nowhere }
{
    let x = words[IN_POOL + s * IN_WIDTH + j];
    let is_written = used::incoming(words, s);
    if j < 2 {
        return kinds::written_if(is_written, kinds::byte(x));
    }
    if j == 2 {
        return kinds::written_if(is_written, kinds::short(x));
    }
    kinds::written_if(is_written, kinds::long(x))
}

// The two words of marks; past them there is no place.
pub(crate) fn mark(words: &[u32; RECORD], j: usize) -> Place
    ensures { result ≡ get_or (numbered (32 ∷ 32 ∷ []) (marks_row (whole words.now).marks)) j nowhere }
{
    if j < 2 {
        return kinds::long(words[MARKS + j]);
    }
    kinds::written_if(false, kinds::none())
}
