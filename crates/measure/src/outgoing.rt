// The calls of the sending side.
ghost use Rattle.std.specs.Prelude.{◌≡◌};
ghost use Rattle.places.specs.Whole.{whole};
ghost use Rattle.setup.specs.Pings.{pings};
ghost use Rattle.setup.specs.Calls.{sets_up};
ghost use Rattle.send.specs.Calls.{sends};
ghost use Rattle.send_step.specs.Calls.{steps};
ghost use Rattle.acknowledge.specs.Calls.{acknowledges};
ghost use Rattle.timeouts.specs.Calls.{checks};
ghost use Rattle.round_trip.specs.Calls.{throttles};
ghost use Rattle.measure.specs.Measured.{settings_of, queue_of, disconnecting, Measured};

use crate::{SETTINGS, telling};
use command::bytes;
use command::fields::{Command, Fields};
use numbers::counters::Reliable;
use outbox::pieces::Piece;
use peer::settings::Settings;
use places::RECORD;
use record::groups::ITSELF;
use send_step::heads::Queue;

// A disconnect that asks for an answer, with no packet.
const DISCONNECTING: Piece = Piece {
    command: Command {
        byte: bytes::DISCONNECT + bytes::ACKNOWLEDGE,
        channel: ITSELF,
        number: Reliable(0),
        fields: Fields::Disconnect { data: 0 },
    },
    packet: false,
    offset: 0,
    length: 0,
};

#[unsafe(no_mangle)]
pub extern "C" fn measure_ping(words: &mut [u32; RECORD], mtu: u32) -> u32
    ensures { Measured (pings (settings_of mtu) (whole words.old)) result (whole words.new) }
{
    let reply = setup::ping(words, Settings { mtu, ..SETTINGS });
    telling::called(reply)
}

#[unsafe(no_mangle)]
pub extern "C" fn measure_setup(words: &mut [u32; RECORD]) -> u32
    ensures { Measured (sets_up (settings_of 1392) disconnecting (whole words.old)) result (whole words.new) }
{
    let reply = setup::setup(words, SETTINGS, DISCONNECTING);
    telling::called(reply)
}

#[unsafe(no_mangle)]
pub extern "C" fn measure_send(
    words: &mut [u32; RECORD],
    mtu: u32,
    channel: u8,
    length: u32,
    flags: u32,
) -> u32
    ensures { Measured (sends (settings_of mtu) channel length flags (whole words.old)) result (whole words.new) }
{
    let settings = Settings { mtu, ..SETTINGS };
    let reply = send::send(words, settings, channel, length, flags);
    telling::called(reply)
}

// 0 names outgoing, any other send-reliable.
fn queue_of(list: u32) -> Queue
    ensures { result ≡ queue_of list }
{
    match list {
        0 => Queue::Outgoing,
        _ => Queue::Reliable,
    }
}

#[unsafe(no_mangle)]
pub extern "C" fn measure_step(words: &mut [u32; RECORD], list: u32, time: u32) -> u32
    ensures { Measured (steps (settings_of 1392) (queue_of list) time (whole words.old)) result (whole words.new) }
{
    let q = queue_of(list);
    let reply = send_step::step(words, SETTINGS, q, time);
    telling::stepped(reply)
}

#[unsafe(no_mangle)]
pub extern "C" fn measure_acknowledge(
    words: &mut [u32; RECORD],
    channel: u8,
    number: u16,
    sent: u16,
    clock: u32,
) -> u32
    ensures { Measured (acknowledges (settings_of 1392) channel number sent clock (whole words.old)) result (whole words.new) }
{
    let reply = acknowledge::acknowledge(words, SETTINGS, channel, Reliable(number), sent, clock);
    telling::acknowledged(reply)
}

#[unsafe(no_mangle)]
pub extern "C" fn measure_check(words: &mut [u32; RECORD], clock: u32) -> u32
    ensures { Measured (checks (settings_of 1392) clock (whole words.old)) result (whole words.new) }
{
    let reply = timeouts::check(words, SETTINGS, clock);
    telling::checked(reply)
}

#[unsafe(no_mangle)]
pub extern "C" fn measure_throttle(words: &mut [u32; RECORD], sample: u32) -> u32
    ensures { Measured (throttles (settings_of 1392) sample (whole words.old)) result (whole words.new) }
{
    let reply = round_trip::throttle(words, SETTINGS, sample);
    telling::throttled(reply)
}
