// The exports of the crate measure for hosts in C: the same names, the same clauses, and one call each.
#![tactic(auto)]

pub mod incoming;
pub mod linking;
pub mod outgoing;

ghost use Rattle.std.specs.Prelude.{◌≡◌};
ghost use Rattle.numbers.specs.Pick.{pick};
ghost use Rattle.peer.specs.Damage.{sound};
ghost use Rattle.places.specs.Whole.{whole};
ghost use Rattle.lifecycle.specs.Calls.{resets, begins, sets_state};
ghost use Rattle.measure.specs.Measured.{settings_of, Measured};

use places::RECORD;

// The damage test alone.
#[unsafe(no_mangle)]
pub extern "C" fn measure_sound(words: &[u32; RECORD]) -> u32
    ensures { result ≡ pick (sound (whole words.now)) 1 0 }
{
    measure::measure_sound(words)
}

#[unsafe(no_mangle)]
pub extern "C" fn measure_reset(words: &mut [u32; RECORD], mtu: u32) -> u32
    ensures { Measured (resets (settings_of mtu) (whole words.old)) result (whole words.new) }
{
    measure::measure_reset(words, mtu)
}

#[unsafe(no_mangle)]
pub extern "C" fn measure_begin(words: &mut [u32; RECORD], mtu: u32, count: u32) -> u32
    ensures { Measured (begins (settings_of 1392) mtu count (whole words.old)) result (whole words.new) }
{
    measure::measure_begin(words, mtu, count)
}

#[unsafe(no_mangle)]
pub extern "C" fn measure_state(words: &mut [u32; RECORD], mtu: u32, state: u32) -> u32
    ensures { Measured (sets_state (settings_of mtu) state (whole words.old)) result (whole words.new) }
{
    measure::measure_state(words, mtu, state)
}
