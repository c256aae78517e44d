// Through the link: a call as data.
ghost use Rattle.places.specs.Whole.{whole};
ghost use Rattle.link.specs.Steps.{calls};
ghost use Rattle.measure.specs.Measured.{settings_of, sending, call_of, Measured};

use places::RECORD;

// A send on channel 0 through the link.
#[unsafe(no_mangle)]
pub extern "C" fn measure_link_send(
    words: &mut [u32; RECORD],
    store: &mut [u8],
    second: &mut [u8],
    datagram: &[u8],
    length: u32,
    flags: u32,
) -> u32
    ensures { Measured (calls (settings_of 1392) (sending length flags) datagram.now (record { peer = whole words.old; store = store.old; second = second.old })) result (record { peer = whole words.new; store = store.new; second = second.new }) }
{
    measure::linking::measure_link_send(words, store, second, datagram, length, flags)
}

#[unsafe(no_mangle)]
pub extern "C" fn measure_link(
    words: &mut [u32; RECORD],
    store: &mut [u8],
    second: &mut [u8],
    datagram: &[u8],
    kind: u32,
    a: u32,
    b: u32,
) -> u32
    ensures { Measured (calls (settings_of 1392) (call_of kind a b) datagram.now (record { peer = whole words.old; store = store.old; second = second.old })) result (record { peer = whole words.new; store = store.new; second = second.new }) }
{
    measure::linking::measure_link(words, store, second, datagram, kind, a, b)
}
