// Sums and doublings that the source needs and the language lacks.
ghost use Rattle.std.specs.Prelude.{◌≡◌};
ghost use Rattle.numbers.specs.Modulo.{sum};
ghost use Rattle.numbers.specs.Wrapping.{round_trip_timeout, reaches};

// Twice x, modulo 2^32.
pub fn double(x: u32) -> u32
    ensures { result ≡ sum 32 x x }
{
    x.wrapping_add(x)
}

// A command's first timeout: round trip + 4 × variance, modulo 2^32.
pub fn round_trip_timeout(trip: u32, variance: u32) -> u32
    ensures { result ≡ round_trip_timeout trip variance }
{
    let twice = double(variance);
    let four = double(twice);
    trip.wrapping_add(four)
}

// Whether 2^(attempts - 1) is at least the limit, exactly, for every attempts.
pub fn reaches(attempts: u16, limit: u32) -> bool
    ensures { result ≡ reaches attempts limit }
{
    if 33 <= attempts {
        return true;
    }
    let twice = 2 * (limit as u64);
    twice <= 1u64 << attempts
}
