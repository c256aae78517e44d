// The calls of the sending side as data, and one function that makes each of them.
#![tactic(auto)]

pub mod calls;

ghost use Rattle.std.specs.Prelude.{◌≡◌};
ghost use Rattle.peer.specs.Outcome.{Came};
ghost use Rattle.places.specs.Whole.{whole};
ghost use Rattle.link_out.specs.Steps.{answer_of, calls_out, Own};

use crate::calls::{Call, Reply};
use peer::settings::Settings;
use places::RECORD;

pub fn call(words: &mut [u32; RECORD], settings: Settings, call: Call) -> Reply
    ensures came { Came answer_of (calls_out settings call (whole words.old)) result (whole words.new) }
    ensures own { Own call result }
{
    match call {
        Call::Ping => Reply::Called(setup::ping(words, settings)),
        Call::Send {
            channel,
            length,
            flags,
        } => Reply::Called(send::send(words, settings, channel, length, flags)),
        Call::Setup { piece } => Reply::Called(setup::setup(words, settings, piece)),
        Call::SendStep { queue, time } => Reply::Stepped(send_step::step(
            words, settings, queue, time,
        )),
        Call::Acknowledgement {
            channel,
            number,
            sent,
            clock,
        } => Reply::Acknowledged(acknowledge::acknowledge(
            words, settings, channel, number, sent, clock,
        )),
        Call::TimeoutCheck { clock } => Reply::Checked(timeouts::check(words, settings, clock)),
        Call::Throttle { sample } => Reply::Throttled(round_trip::throttle(
            words, settings, sample,
        )),
    }
}
