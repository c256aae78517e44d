// The calls of the sending side.
ghost use Rattle.places.specs.Whole.{whole};
ghost use Rattle.setup.specs.Pings.{pings};
ghost use Rattle.setup.specs.Calls.{sets_up};
ghost use Rattle.send.specs.Calls.{sends};
ghost use Rattle.send_step.specs.Calls.{steps};
ghost use Rattle.acknowledge.specs.Calls.{acknowledges};
ghost use Rattle.timeouts.specs.Calls.{checks};
ghost use Rattle.round_trip.specs.Calls.{throttles};
ghost use Rattle.measure.specs.Measured.{settings_of, queue_of, disconnecting, Measured};

use places::RECORD;

#[unsafe(no_mangle)]
pub extern "C" fn measure_ping(words: &mut [u32; RECORD], mtu: u32) -> u32
    ensures { Measured (pings (settings_of mtu) (whole words.old)) result (whole words.new) }
{
    measure::outgoing::measure_ping(words, mtu)
}

#[unsafe(no_mangle)]
pub extern "C" fn measure_setup(words: &mut [u32; RECORD]) -> u32
    ensures { Measured (sets_up (settings_of 1392) disconnecting (whole words.old)) result (whole words.new) }
{
    measure::outgoing::measure_setup(words)
}

#[unsafe(no_mangle)]
pub extern "C" fn measure_send(
    words: &mut [u32; RECORD],
    mtu: u32,
    channel: u8,
    length: u32,
    flags: u32,
) -> u32
    ensures { Measured (sends (settings_of mtu) channel length flags (whole words.old)) result (whole words.new) }
{
    measure::outgoing::measure_send(words, mtu, channel, length, flags)
}

#[unsafe(no_mangle)]
pub extern "C" fn measure_step(words: &mut [u32; RECORD], list: u32, time: u32) -> u32
    ensures { Measured (steps (settings_of 1392) (queue_of list) time (whole words.old)) result (whole words.new) }
{
    measure::outgoing::measure_step(words, list, time)
}

#[unsafe(no_mangle)]
pub extern "C" fn measure_acknowledge(
    words: &mut [u32; RECORD],
    channel: u8,
    number: u16,
    sent: u16,
    clock: u32,
) -> u32
    ensures { Measured (acknowledges (settings_of 1392) channel number sent clock (whole words.old)) result (whole words.new) }
{
    measure::outgoing::measure_acknowledge(words, channel, number, sent, clock)
}

#[unsafe(no_mangle)]
pub extern "C" fn measure_check(words: &mut [u32; RECORD], clock: u32) -> u32
    ensures { Measured (checks (settings_of 1392) clock (whole words.old)) result (whole words.new) }
{
    measure::outgoing::measure_check(words, clock)
}

#[unsafe(no_mangle)]
pub extern "C" fn measure_throttle(words: &mut [u32; RECORD], sample: u32) -> u32
    ensures { Measured (throttles (settings_of 1392) sample (whole words.old)) result (whole words.new) }
{
    measure::outgoing::measure_throttle(words, sample)
}
