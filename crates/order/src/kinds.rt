// The kinds of places: numbers of so many bits, a list's length, a command's byte, what is not written.
ghost use Rattle.std.specs.Prelude.{◌≡◌, ◌-◌, ◌^◌, ◌%◌, leb};
ghost use Rattle.numbers.specs.Pick.{pick};
ghost use Rattle.order.specs.Table.{plain as plain_of, length_of, as_command, unwritten as not_written};

use crate::Place;
use numbers::widths::{low8, low16, wide8, wide16};

fn plain(bits: u32, most: u32, number: u32) -> Place
    requires { most ≡ 2 ^ bits - 1 }
    ensures { result ≡ plain_of bits number }
{
    Place {
        number,
        bits,
        most,
        is_command: false,
        is_written: true,
    }
}

// Past a command's last field there is no number.
pub(crate) fn none() -> Place
    ensures { result ≡ plain_of 0 0 }
{
    plain(0, 0, 0)
}

// A packet's flag: 1, or 0.
pub(crate) fn flag(x: u32) -> Place
    ensures { result ≡ plain_of 1 (pick (leb 1 x) 1 0) }
{
    if 1 <= x {
        return plain(1, 1, 1);
    }
    plain(1, 1, 0)
}

pub(crate) fn byte(x: u32) -> Place
    ensures { result ≡ plain_of 8 (x % 256) }
{
    plain(8, 255, wide8(low8(x)))
}

pub(crate) fn short(x: u32) -> Place
    ensures { result ≡ plain_of 16 (x % 65536) }
{
    plain(16, 65535, wide16(low16(x)))
}

pub(crate) fn long(x: u32) -> Place
    ensures { result ≡ plain_of 32 x }
{
    plain(32, 4294967295, x)
}

// A list's length, of a pool of so many.
pub(crate) fn length_of(pool: u32, x: u32) -> Place
    ensures { result ≡ length_of pool (x % 65536) }
{
    Place {
        number: wide16(low16(x)),
        bits: 16,
        most: pool,
        is_command: false,
        is_written: true,
    }
}

pub(crate) fn as_command(e: Place) -> Place
    ensures { result ≡ as_command e }
{
    Place {
        is_command: true,
        ..e
    }
}

// The place as it is where it is written, and else with 0 in it.
pub(crate) fn written_if(when: bool, e: Place) -> Place
    ensures { result ≡ pick when e (not_written e) }
{
    if when {
        return e;
    }
    Place {
        number: 0,
        is_written: false,
        ..e
    }
}
