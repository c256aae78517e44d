// The step on a slot of the record.
ghost use Rattle.std.specs.Prelude.{◌≡◌};
ghost use Rattle.overdue.specs.Walking.{at_entry};

use crate::step::Walk;
use record::groups::{Flow, Loss, Times};

// The numbers that the walk begins with.
pub fn at_entry(times: Times, loss: Loss, flow: Flow) -> Walk
    ensures { result ≡ at_entry times loss flow }
{
    Walk {
        earliest: times.earliest_timeout,
        next: times.next_timeout,
        lost: loss.lost,
        transit: flow.transit,
        kept: false,
        back: false,
        over: false,
    }
}
