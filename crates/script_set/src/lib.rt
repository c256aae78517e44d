// Ops 20 to 24, the bench's own: whether numbers fit the places that they are for, by the table of the record's places; and the lent record with them in it.
#![tactic(auto)]

pub mod named;

ghost use Rattle.std.specs.Prelude.{◌≡◌, ◌+◌, ◌≤◌, ◌<◌, length, set};
ghost use Rattle.std.proofs.lemmas.List.Edits.{sets};
ghost use Rattle.places.specs.Whole.{whole, record_length};
ghost use Rattle.script_set.specs.Setting.{fits as fits_in, fits_at, all_fit, command_numbers};

use command::fields::Command;
use command::rows;
use order::Place;
use places::RECORD;

// Whether a number fits the bits of a place; none does where there is no place.
fn fits(place: Place, x: u32) -> bool
    ensures { result ≡ fits_in place x }
{
    let bits = place.bits;
    if bits == 0 {
        return false;
    }
    if 32 <= bits {
        return true;
    }
    x >> bits == 0
}

pub fn fits_at(words: &[u32; RECORD], i: usize, x: u32) -> bool
    ensures { result ≡ fits_at (whole words.now) i x }
{
    fits(order::place_at(words, i), x)
}

// Whether the numbers fit the places from i on.
pub fn all_fit(words: &[u32; RECORD], i: usize, numbers: &[u32]) -> bool
    requires { i ≤ 1236 }
    ensures { result ≡ all_fit (whole words.now) i numbers.now }
{
    for (j, x) in numbers.iter().enumerate() {
        if !fits_at(words, i + j, *x) {
            return false;
        }
    }
    true
}

// A number in its place.
pub fn put(words: &mut [u32], i: usize, x: u32)
    ensures { words.new ≡ set words.old i x }
{
    if i < words.len() {
        words[i] = x;
    }
}

// The numbers in the places from i on.
pub fn put_all(words: &mut [u32], i: usize, numbers: &[u32])
    requires { i + length numbers.now ≤ length words.old }
    ensures { words.new ≡ sets words.old i numbers.now }
{
    words[i..i + numbers.len()].copy_from_slice(numbers);
}

// A command's numbers from place i on, and its kind behind them.
pub fn put_command(words: &mut [u32], i: usize, c: Command)
    requires { i + 17 ≤ length words.old }
    ensures { words.new ≡ sets words.old i (command_numbers c) }
{
    let row = rows::of(c);
    let fields = c.fields;
    put_all(words, i, &row);
    words[i + 16] = u32::from(rows::kind_of(fields));
}
