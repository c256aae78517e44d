// The record's numbers in their groups: how many bytes they take, written into a buffer, and read back, by the table of the record's places.
ghost use Rattle.std.specs.Prelude.{◌≡◌, true, ◌+◌, ◌≤◌, ◌<◌, length, drop, IfSome};
ghost use Rattle.std.proofs.lemmas.List.Edits.{sets};
ghost use Rattle.numbers.specs.Pick.{pick};
ghost use Rattle.sevens.specs.Groups.{written};
ghost use Rattle.places.specs.Whole.{whole, record_length};
ghost use Rattle.order.specs.Table.{row_of};
ghost use Rattle.snapshot_parts.specs.Row.{grouped, fits as fits_in, put_at, result_of, numbers_from};
ghost use Rattle.snapshot_parts.specs.CodeRow.{part_of};

use order::Place;
use places::RECORD;

// The bytes that a place takes.
fn size_at(place: Place) -> usize
    ensures { result ≡ pick place.is_written (length (written place.number)) 0 }
{
    if place.is_written {
        return sevens::size(place.number);
    }
    0
}

// The bytes that all numbers take.
pub fn size(words: &[u32; RECORD]) -> usize
    ensures { result ≡ length (grouped (row_of (whole words.now))) }
{
    let mut total: usize = 0;
    for i in 0..RECORD {
        total = total + size_at(order::place_at(words, i));
    }
    total
}

// A place's number, where it is written, from a place of the buffer on; where it ends.
fn put_at(place: Place, buffer: &mut [u8], at: usize) -> usize
    requires { at + length (part_of place) ≤ length buffer.old }
    ensures bytes { buffer.new ≡ sets buffer.old at (part_of place) }
    ensures end { result ≡ at + length (part_of place) }
{
    if place.is_written {
        sevens::put(buffer, at, place.number);
        return at + sevens::size(place.number);
    }
    at
}

// All numbers from a place of the buffer on; where they end.
pub fn put(words: &[u32; RECORD], buffer: &mut [u8], at: usize) -> usize
    requires { at + length (grouped (row_of (whole words.now))) ≤ length buffer.old }
    ensures bytes { buffer.new ≡ sets buffer.old at (grouped (row_of (whole words.now))) }
    ensures end { result ≡ at + length (grouped (row_of (whole words.now))) }
{
    let mut end = at;
    for i in 0..RECORD {
        end = put_at(order::place_at(words, i), buffer, end);
    }
    end
}

// Whether a number may stand in a place.
fn fits(place: Place, x: u64) -> bool
    ensures { result ≡ fits_in place x }
{
    if (place.most as u64) < x {
        return false;
    }
    !place.is_command || matches!(x % 16, 1..=12)
}

// A number in its place; a command's byte names the kind too, which stands 16 places behind it.
fn set(words: &mut [u32], i: usize, place: Place, x: u32)
    requires i_in_bounds { i < length words.old }
    requires i_in_bounds_2 { place.is_command ≡ true → i + 16 < length words.old }
    ensures { words.new ≡ put_at place i x words.old }
{
    words[i] = x;
    if place.is_command {
        words[i + 16] = x % 16;
    }
}

// The number of a place, where it is written, from a place of the bytes on, into the record; where it ends, if it can be read.
fn read_at(bytes: &[u8], at: usize, words: &mut [u32; RECORD], i: usize) -> Option<usize>
    requires { (i < record_length) × (at ≤ length bytes.now) }
    ensures numbers { result_of result words.new bytes.now ≡ numbers_from 1 i words.old (drop at bytes.now) }
    ensures inside { IfSome result (λ end. end ≤ length bytes.now) }
{
    let place = order::place_at(words, i);
    if !place.is_written {
        return Some(at);
    }
    let number = sevens::read(bytes, at)?;
    if !fits(place, number.value) {
        return None;
    }
    set(words, i, place, number.value as u32);
    Some(at + number.groups)
}

// All numbers, from a place of the bytes on, into the record's places; where they end, if they can be read.
pub fn read(bytes: &[u8], at: usize, words: &mut [u32; RECORD]) -> Option<usize>
    requires { at ≤ length bytes.now }
    ensures numbers { result_of result words.new bytes.now ≡ numbers_from record_length 0 words.old (drop at bytes.now) }
    ensures inside { IfSome result (λ end. end ≤ length bytes.now) }
{
    let mut end = at;
    for i in 0..RECORD {
        end = read_at(bytes, end, words, i)?;
    }
    Some(end)
}
