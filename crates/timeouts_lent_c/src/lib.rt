// `lyn_walk` of the crate timeouts_lent for hosts in C: the same name, the same clause, and one call.
#![tactic(auto)]

ghost use Rattle.timeouts_lent.specs.Walking.{Walks};

use record::groups::Limits;
use timeouts_lent::{Awaiting, Numbers};

// Each once, oldest first; the answer is whether the numbers say that it was given up.
#[unsafe(no_mangle)]
pub extern "C" fn lyn_walk(
    sent: &mut [Awaiting],
    limits: Limits,
    clock: u32,
    walk: Numbers,
) -> Numbers
    ensures { Walks limits clock walk sent.old result sent.new }
{
    timeouts_lent::lyn_walk(sent, limits, clock, walk)
}
