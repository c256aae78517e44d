// Dispatch: what of a channel's list is ready joins dispatched.
#![tactic(auto)]

pub mod dispatching;

ghost use Rattle.std.specs.Prelude.{◌≡◌};
ghost use Rattle.peer.specs.Outcome.{Came};
ghost use Rattle.peer.specs.Calls.{answer_of};
ghost use Rattle.places.specs.Whole.{whole};
ghost use Rattle.dispatch.specs.Calls.{dispatches};

use numbers::refusals::Refusal;
use peer::gate::Lent;
use peer::settings::Settings;
use places::{RECORD, groups};

// Refused by 11, 13 and 2, in this order.
pub fn dispatch(words: &mut [u32; RECORD], settings: Settings, channel: u8) -> Result<(), Refusal>
    ensures { Came answer_of (dispatches settings channel (whole words.old)) result (whole words.new) }
{
    gate::ask(words, settings, Lent::Nothing)?;
    let standing = groups::standing(words);
    if standing.channels <= channel as u32 {
        return Err(Refusal::InvalidChannel);
    }
    dispatching::dispatch(words, channel as usize);
    Ok(())
}
