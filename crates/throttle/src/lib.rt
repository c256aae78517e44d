// The throttle: how many of 32 unreliable packets go out, by the last round trips.
#![tactic(auto)]

ghost use Rattle.throttle.specs.Throttling.{Rolls};

use numbers::wrapping::double;

// The numbers that `enet_peer_throttle` reads and the one, `value`, that it alters.
#[repr(C)]
#[derive(Clone, Copy)]
pub struct Throttle {
    pub value: u32,
    pub limit: u32,
    pub acceleration: u32,
    pub deceleration: u32,
    pub last: u32,
    pub variance: u32,
}

#[derive(Clone, Copy)]
pub enum Turn {
    Held,
    Raised,
    Lowered,
}

#[derive(Clone, Copy)]
pub struct Rolled {
    pub throttle: Throttle,
    pub turn: Turn,
}

impl Throttle {
    // The source's tests in the source's order: the variance is asked for before the sample.
    pub fn roll(self, sample: u32) -> Rolled
        ensures { Rolls self sample result }
    {
        let high = self.last.wrapping_add(double(self.variance));
        let (value, turn) = if self.last <= self.variance {
            (self.limit, Turn::Held)
        } else if sample <= self.last {
            let raised = self.value.wrapping_add(self.acceleration);
            (raised.min(self.limit), Turn::Raised)
        } else if sample > high {
            (self.value.saturating_sub(self.deceleration), Turn::Lowered)
        } else {
            (self.value, Turn::Held)
        };
        Rolled {
            throttle: Throttle { value, ..self },
            turn,
        }
    }

    // The numbers lent and altered there, as the source alters its peer.
    pub fn turn(&mut self, sample: u32) -> Turn
        ensures { Rolls self.old sample (record { throttle = self.new; turn = result }) }
    {
        let rolled = (*self).roll(sample);
        *self = rolled.throttle;
        rolled.turn
    }
}
