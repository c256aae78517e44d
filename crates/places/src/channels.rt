// The four numbers of a channel, in their places.
ghost use Rattle.std.specs.Prelude.{◌≡◌, ◌+◌, ◌≤◌, ◌<◌, length, set};
ghost use Rattle.record.specs.Sizes.{channels};
ghost use Rattle.record.specs.Updates.{with_numbers, with_last};
ghost use Rattle.peer.specs.Updates.{with_channels};
ghost use Rattle.places.specs.Whole.{whole, record_length};
ghost use Rattle.places.specs.Updates.{channel_at, numbers_of};

use crate::{CHANNEL_WIDTH, CHANNELS, RECORD};
use numbers::counters::{Reliable, Unreliable};
use numbers::widths::{low16, wide16};

// A channel without its list.
#[derive(Clone, Copy)]
pub struct Numbers {
    pub outgoing_reliable: Reliable,
    pub outgoing_unreliable: Unreliable,
    pub incoming_reliable: Reliable,
    pub incoming_unreliable: Unreliable,
}

pub fn numbers_of(words: &[u32; RECORD], i: usize) -> Numbers
    requires { i < channels }
    ensures { result ≡ numbers_of (channel_at (whole words.now) i) }
{
    let at = CHANNELS + i * CHANNEL_WIDTH;
    let outgoing_reliable = Reliable(low16(words[at]));
    let outgoing_unreliable = Unreliable(low16(words[at + 1]));
    let incoming_reliable = Reliable(low16(words[at + 2]));
    let incoming_unreliable = Unreliable(low16(words[at + 3]));
    Numbers {
        outgoing_reliable,
        outgoing_unreliable,
        incoming_reliable,
        incoming_unreliable,
    }
}

// Its two outgoing numbers.
pub fn put_outgoing(words: &mut [u32; RECORD], i: usize, r: Reliable, u: Unreliable)
    requires { i < channels }
    ensures { whole words.new ≡ with_channels (whole words.old) (set (whole words.old).channels i (with_numbers (channel_at (whole words.old) i) r u)) }
{
    put_pair(words, CHANNELS + i * CHANNEL_WIDTH, r.0, u.0);
}

// Its two incoming numbers.
pub fn put_incoming(words: &mut [u32; RECORD], i: usize, r: Reliable, u: Unreliable)
    requires { i < channels }
    ensures { whole words.new ≡ with_channels (whole words.old) (set (whole words.old).channels i (with_last (channel_at (whole words.old) i) r u)) }
{
    put_pair(words, CHANNELS + i * CHANNEL_WIDTH + 2, r.0, u.0);
}

// A reliable and an unreliable number, side by side.
fn put_pair(words: &mut [u32], at: usize, r: u16, u: u16)
    requires { at + 2 ≤ length words.old }
    ensures is { words.new ≡ set (set words.old at r) (at + 1) u }
    ensures low { (r < 65536) × (u < 65536) }
{
    let reliable = wide16(r);
    let unreliable = wide16(u);
    words[at] = reliable;
    words[at + 1] = unreliable;
}
