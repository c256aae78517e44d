// Which counters a command steps, by the source's tests in the source's order.
ghost use Rattle.std.specs.Prelude.{◌≡◌};
ghost use Rattle.outbox.specs.Counting.{own_step, reliable_step, group_step, rest_step, stamped_by, stamped};

use command::bytes;
use numbers::bits;
use numbers::counters::{Group, Reliable, Unreliable};
use record::groups::ITSELF;

// The counters that setting up may step: the peer's own, a channel's two, the peer's group.
#[derive(Clone, Copy)]
pub struct Counters {
    pub own: Reliable,
    pub reliable: Reliable,
    pub unreliable: Unreliable,
    pub group: Group,
}

// The counters after a command, and the numbers that it got.
#[derive(Clone, Copy)]
pub struct Stamped {
    pub counters: Counters,
    pub reliable: Reliable,
    pub unreliable: Unreliable,
}

// Channel 255 first, then flag 128, then flag 64, then the rest.
pub fn stamp(byte: u8, channel: u8, offset: u32, counters: Counters) -> Stamped
    ensures { result ≡ stamped byte channel offset counters }
{
    if channel == ITSELF {
        return stamp_own(counters);
    }
    if bytes::is_acknowledged(byte) {
        return stamp_reliable(counters);
    }
    if bits::is_set(byte as u32, 6) {
        return stamp_group(counters);
    }
    stamp_unreliable(offset, counters)
}

// The peer's own number steps.
fn stamp_own(counters: Counters) -> Stamped
    ensures { result ≡ stamped_by (own_step counters) (own_step counters).own (record { 0 = 0 }) }
{
    let own = counters.own;
    let next = own.next();
    let mut k = counters;
    k.own = next;
    Stamped {
        counters: k,
        reliable: next,
        unreliable: Unreliable(0),
    }
}

// The channel's reliable number steps, and its unreliable one begins anew.
fn stamp_reliable(counters: Counters) -> Stamped
    ensures { result ≡ stamped_by (reliable_step counters) (reliable_step counters).reliable (record { 0 = 0 }) }
{
    let reliable = counters.reliable;
    let next = reliable.next();
    let none = Unreliable(0);
    let mut k = counters;
    k.reliable = next;
    k.unreliable = none;
    Stamped {
        counters: k,
        reliable: next,
        unreliable: none,
    }
}

// The group steps; the command gets no number.
fn stamp_group(counters: Counters) -> Stamped
    ensures { result ≡ stamped_by (group_step counters) (record { 0 = 0 }) (record { 0 = 0 }) }
{
    let group = counters.group;
    let next = group.next();
    let mut k = counters;
    k.group = next;
    Stamped {
        counters: k,
        reliable: Reliable(0),
        unreliable: Unreliable(0),
    }
}

// Only a packet's first piece steps the channel's unreliable number.
fn stamp_unreliable(offset: u32, counters: Counters) -> Stamped
    ensures { result ≡ stamped_by (rest_step offset counters) counters.reliable (rest_step offset counters).unreliable }
{
    let reliable = counters.reliable;
    let unreliable = counters.unreliable;
    if offset != 0 {
        return Stamped {
            counters,
            reliable,
            unreliable,
        };
    }
    let next = unreliable.next();
    let mut k = counters;
    k.unreliable = next;
    Stamped {
        counters: k,
        reliable,
        unreliable: next,
    }
}
