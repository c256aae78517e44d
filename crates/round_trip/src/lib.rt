// The throttle as a call, on the record's own numbers; the averages that it follows.
#![tactic(auto)]

pub mod averages;

ghost use Rattle.std.specs.Prelude.{◌≡◌};
ghost use Rattle.round_trip.specs.Calls.{answer_of, throttles};
ghost use Rattle.peer.specs.Outcome.{Came};
ghost use Rattle.places.specs.Whole.{whole};

use numbers::refusals::Refusal;
use peer::gate::Lent;
use peer::settings::Settings;
use places::{RECORD, groups};
use throttle::Turn;

// Refused by 11 and 13.
pub fn throttle(words: &mut [u32; RECORD], settings: Settings, sample: u32) -> Result<Turn, Refusal>
    ensures { Came answer_of (throttles settings sample (whole words.old)) result (whole words.new) }
{
    gate::ask(words, settings, Lent::Nothing)?;
    let throttling = groups::throttling(words);
    let trips = groups::trips(words);
    let rolled = crate::averages::throttle(throttling, trips, sample);
    groups::put_throttling(words, rolled.throttling);
    Ok(rolled.turn)
}
