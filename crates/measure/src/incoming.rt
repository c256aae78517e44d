// The calls of the receiving side.
ghost use Rattle.std.specs.Prelude.{◌≡◌, List, ℕ};
ghost use Rattle.places.specs.Whole.{whole};
ghost use Rattle.arrive_unsequenced.specs.Calls.{arrives_unsequenced};
ghost use Rattle.arrive_reliable.specs.Calls.{arrives_reliable};
ghost use Rattle.arrive_fragment.specs.Calls.{arrives_fragment};
ghost use Rattle.dispatch.specs.Calls.{dispatches};
ghost use Rattle.receive.specs.Calls.{receives};
ghost use Rattle.measure.specs.Measured.{settings_of, unsequenced_of, reliable_of, piece_of, Measured};

use crate::{SETTINGS, telling};
use arrival::Arrival;
use arrive_fragment::Piece;
use command::fields::Fragment;
use numbers::counters::{Group, Reliable};
use places::RECORD;

// The commands' bytes, each with the flag that the source sends with it.
const UNSEQUENCED: u8 = 73;

const RELIABLE: u8 = 134;

const FRAGMENT: u8 = 136;

#[unsafe(no_mangle)]
pub extern "C" fn measure_unsequenced(
    words: &mut [u32; RECORD],
    store: &mut [u8],
    datagram: &[u8],
    group: u16,
    length: u32,
) -> u32
    ensures { (second : List ℕ) → Measured (arrives_unsequenced (settings_of 1392) (unsequenced_of length) (record { 0 = group }) datagram.now (record { peer = whole words.old; store = store.old; second = second })) result (record { peer = whole words.new; store = store.new; second = second }) }
{
    let a = Arrival {
        byte: UNSEQUENCED,
        channel: 0,
        number: Reliable(0),
        length,
        place: 0,
    };
    let reply = arrive_unsequenced::arrive(words, SETTINGS, store, datagram, a, Group(group));
    telling::arrived(reply)
}

#[unsafe(no_mangle)]
pub extern "C" fn measure_reliable(
    words: &mut [u32; RECORD],
    store: &mut [u8],
    datagram: &[u8],
    number: u16,
    length: u32,
) -> u32
    ensures { (second : List ℕ) → Measured (arrives_reliable (settings_of 1392) (reliable_of number length) datagram.now (record { peer = whole words.old; store = store.old; second = second })) result (record { peer = whole words.new; store = store.new; second = second }) }
{
    let a = Arrival {
        byte: RELIABLE,
        channel: 0,
        number: Reliable(number),
        length,
        place: 0,
    };
    let reply = arrive_reliable::arrive(words, SETTINGS, store, datagram, a);
    telling::arrived(reply)
}

// A piece of a block of two that starts at 1.
fn piece_of(length: u16, number: u32, total: u32, offset: u32) -> Piece
    ensures { result ≡ piece_of length number total offset }
{
    Piece {
        byte: FRAGMENT,
        channel: 0,
        number: Reliable(1),
        start: Reliable(1),
        fragment: Fragment {
            length,
            count: 2,
            number,
            total,
            offset,
        },
        place: 0,
    }
}

#[unsafe(no_mangle)]
pub extern "C" fn measure_fragment(
    words: &mut [u32; RECORD],
    store: &[u8],
    second: &mut [u8],
    datagram: &[u8],
    length: u16,
    number: u32,
    total: u32,
    offset: u32,
) -> u32
    ensures { Measured (arrives_fragment (settings_of 1392) (piece_of length number total offset) datagram.now (record { peer = whole words.old; store = store.now; second = second.old })) result (record { peer = whole words.new; store = store.now; second = second.new }) }
{
    let a = piece_of(length, number, total, offset);
    let reply = arrive_fragment::arrive(words, SETTINGS, store, second, datagram, a);
    telling::arrived(reply)
}

#[unsafe(no_mangle)]
pub extern "C" fn measure_dispatch(words: &mut [u32; RECORD], channel: u8) -> u32
    ensures { Measured (dispatches (settings_of 1392) channel (whole words.old)) result (whole words.new) }
{
    let reply = dispatch::dispatch(words, SETTINGS, channel);
    telling::called(reply)
}

#[unsafe(no_mangle)]
pub extern "C" fn measure_receive(words: &mut [u32; RECORD]) -> u32
    ensures { Measured (receives (settings_of 1392) (whole words.old)) result (whole words.new) }
{
    let reply = receive::receive(words, SETTINGS);
    telling::received(reply)
}
