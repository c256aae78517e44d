// Times: the distance of two, and the sample that an acknowledgement's 16 bits give.
ghost use Rattle.std.specs.Prelude.{◌≡◌};
ghost use Rattle.numbers.specs.Clock.{distance, answer_of, completed, sampled};

// A day of milliseconds: from here on the difference is taken the other way round.
pub const OVERFLOW: u32 = 86400000;

pub fn distance(a: u32, b: u32) -> u32
    ensures { result ≡ distance a b }
{
    let plain = a.wrapping_sub(b);
    if OVERFLOW <= plain {
        b.wrapping_sub(a)
    } else {
        plain
    }
}

// The 16-bit sent time completed from the clock, as the acknowledgement's handler does.
pub fn completed(clock: u32, sent: u16) -> u32
    ensures { result ≡ completed clock sent }
{
    let low = clock % 65536;
    let near = clock - low + sent as u32;
    if sent < 32768 {
        return near;
    }
    if 32768 <= low {
        return near;
    }
    near.wrapping_sub(65536)
}

// The round trip that an acknowledgement at the clock shows, at least 1; none for a sent time ahead of the clock.
pub fn sample(clock: u32, sent: u16) -> Option<u32>
    ensures { answer_of result ≡ sampled clock sent }
{
    let gap = clock.wrapping_sub(completed(clock, sent));
    if OVERFLOW <= gap {
        return None;
    }
    if gap < 1 {
        return Some(1);
    }
    Some(gap)
}
