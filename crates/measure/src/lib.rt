// For measuring only: each export makes one call on the record that it is lent, and answers with what the call tells, as one number.
#![tactic(auto)]

pub mod incoming;
pub mod linking;
pub mod outgoing;
pub mod telling;

ghost use Rattle.std.specs.Prelude.{◌≡◌};
ghost use Rattle.numbers.specs.Pick.{pick};
ghost use Rattle.peer.specs.Damage.{sound};
ghost use Rattle.places.specs.Whole.{whole};
ghost use Rattle.lifecycle.specs.Calls.{resets, begins, sets_state};
ghost use Rattle.measure.specs.Measured.{settings_of, Measured};

use peer::settings::Settings;
use places::RECORD;

// The defaults of document 01.
pub const SETTINGS: Settings = Settings {
    mtu: 1392,
    packet: 33554432,
    waiting: 33554432,
    checksum: false,
};

// The damage test alone.
#[unsafe(no_mangle)]
pub extern "C" fn measure_sound(words: &[u32; RECORD]) -> u32
    ensures { result ≡ pick (sound (whole words.now)) 1 0 }
{
    u32::from(gate::sound(words))
}

#[unsafe(no_mangle)]
pub extern "C" fn measure_reset(words: &mut [u32; RECORD], mtu: u32) -> u32
    ensures { Measured (resets (settings_of mtu) (whole words.old)) result (whole words.new) }
{
    let reply = lifecycle::reset(words, Settings { mtu, ..SETTINGS });
    telling::called(reply)
}

#[unsafe(no_mangle)]
pub extern "C" fn measure_begin(words: &mut [u32; RECORD], mtu: u32, count: u32) -> u32
    ensures { Measured (begins (settings_of 1392) mtu count (whole words.old)) result (whole words.new) }
{
    let reply = lifecycle::begin(words, SETTINGS, mtu, count);
    telling::called(reply)
}

#[unsafe(no_mangle)]
pub extern "C" fn measure_state(words: &mut [u32; RECORD], mtu: u32, state: u32) -> u32
    ensures { Measured (sets_state (settings_of mtu) state (whole words.old)) result (whole words.new) }
{
    let reply = lifecycle::set_state(words, Settings { mtu, ..SETTINGS }, state);
    telling::called(reply)
}
