// Where a reliable arrival stands on its channel.
ghost use Rattle.std.specs.Prelude.{◌≡◌, ◌<◌, length, slice_set};
ghost use Rattle.arrive_reliable.specs.Holding.{number_distance, holds, is_passed, place_of, held_with};
ghost use Rattle.record.specs.Lists.{in_items};
ghost use Rattle.record.specs.Sizes.{channels};
ghost use Rattle.peer.specs.Updates.{with_channels};
ghost use Rattle.places.specs.Whole.{whole, record_length};
ghost use Rattle.places.specs.Updates.{channel_at};
ghost use Rattle.queues.specs.Queues.{held_of};

use numbers::counters::Reliable;
use places::{RECORD, channels, pools};
use queues::held;

// How far past the last number one is still new.
const FARTHEST: u16 = 32767;

fn number_distance(last: Reliable, number: Reliable) -> u16
    ensures { result ≡ number_distance last.0 number.0 }
{
    std::num::wrapping_sub_u16(number.0, last.0)
}

fn holds(words: &[u32; RECORD], i: usize, number: Reliable) -> bool
    requires { i < channels }
    ensures { result ≡ holds (whole words.now).incoming (in_items (held_of (whole words.now) i)) number.0 }
{
    for k in 0..held::count(words, i) {
        let s = held::slot_at(words, i, k);
        let slot = pools::incoming_at(words, s as usize);
        let own = slot.number;
        if own.0 == number.0 {
            return true;
        }
    }
    false
}

// Passed over by its number.
pub fn is_passed(words: &[u32; RECORD], i: usize, number: Reliable) -> bool
    requires { i < channels }
    ensures { result ≡ is_passed (whole words.now).incoming (channel_at (whole words.now) i) number.0 }
{
    let own = channels::numbers_of(words, i);
    let d = number_distance(own.incoming_reliable, number);
    if d == 0 {
        return true;
    }
    if FARTHEST < d {
        return true;
    }
    holds(words, i, number)
}

// The place before the first held one that is farther.
fn place_of(words: &[u32; RECORD], i: usize, last: Reliable, number: Reliable) -> usize
    requires { i < channels }
    ensures { result ≡ place_of (whole words.now).incoming (in_items (held_of (whole words.now) i)) last.0 (number_distance last.0 number.0) }
{
    let d = number_distance(last, number);
    let n = held::count(words, i);
    for k in 0..n {
        let s = held::slot_at(words, i, k);
        let slot = pools::incoming_at(words, s as usize);
        if d < number_distance(last, slot.number) {
            return k;
        }
    }
    n
}

// Slot s joins channel i's list in the place of its number.
pub fn hold(words: &mut [u32; RECORD], i: usize, number: Reliable, s: u16)
    requires { i < channels }
    ensures { whole words.new ≡ with_channels (whole words.old) (slice_set (whole words.old).channels i (held_with (whole words.old).incoming (channel_at (whole words.old) i) number.0 s)) }
{
    let own = channels::numbers_of(words, i);
    let at = place_of(words, i, own.incoming_reliable, number);
    held::insert(words, i, at, s);
}
