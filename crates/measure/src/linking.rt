// Through the link: a call as data.
ghost use Rattle.std.specs.Prelude.{◌≡◌};
ghost use Rattle.places.specs.Whole.{whole};
ghost use Rattle.link.specs.Steps.{calls};
ghost use Rattle.measure.specs.Measured.{settings_of, sending, call_of, Measured};

use crate::{SETTINGS, telling};
use link::calls::Call;
use link_in::calls::Call as Inward;
use link_out::calls::Call as Outward;
use places::RECORD;

// A send on channel 0 through the link.
#[unsafe(no_mangle)]
pub extern "C" fn measure_link_send(
    words: &mut [u32; RECORD],
    store: &mut [u8],
    second: &mut [u8],
    datagram: &[u8],
    length: u32,
    flags: u32,
) -> u32
    ensures { Measured (calls (settings_of 1392) (sending length flags) datagram.now (record { peer = whole words.old; store = store.old; second = second.old })) result (record { peer = whole words.new; store = store.new; second = second.new }) }
{
    let call = Call::Outward(Outward::Send {
        channel: 0,
        length,
        flags,
    });
    let reply = link::lent::call(words, SETTINGS, call, store, second, datagram);
    telling::linked(reply)
}

// By its kind, so that no compiler knows which call is made.
pub fn call_of(kind: u32, a: u32, b: u32) -> Call
    ensures { result ≡ call_of kind a b }
{
    match kind {
        0 => Call::Outward(Outward::Send {
            channel: 0,
            length: a,
            flags: b,
        }),
        1 => Call::Outward(Outward::Ping),
        2 => Call::Outward(Outward::TimeoutCheck { clock: a }),
        3 => Call::Inward(Inward::Dispatch { channel: 0 }),
        4 => Call::Inward(Inward::Receive),
        _ => Call::SetState { state: a },
    }
}

#[unsafe(no_mangle)]
pub extern "C" fn measure_link(
    words: &mut [u32; RECORD],
    store: &mut [u8],
    second: &mut [u8],
    datagram: &[u8],
    kind: u32,
    a: u32,
    b: u32,
) -> u32
    ensures { Measured (calls (settings_of 1392) (call_of kind a b) datagram.now (record { peer = whole words.old; store = store.old; second = second.old })) result (record { peer = whole words.new; store = store.new; second = second.new }) }
{
    let call = call_of(kind, a, b);
    let reply = link::lent::call(words, SETTINGS, call, store, second, datagram);
    telling::linked(reply)
}
