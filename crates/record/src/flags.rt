// The peer's flags.
ghost use Rattle.std.specs.Prelude.{◌≡◌};
ghost use Rattle.record.specs.Flags.{flag_set, flagged};

use crate::groups::Unsequenced;
use numbers::bits;
use numbers::widths::low16;

// Bit 1 of the flags: what joins dispatched sets it.
pub fn flag_set(flags: u16) -> u16
    ensures { result ≡ flag_set flags }
{
    low16(bits::set(flags as u32, 0))
}

pub fn flagged(unsequenced: Unsequenced) -> Unsequenced
    ensures { result ≡ flagged unsequenced }
{
    let flags = flag_set(unsequenced.flags);
    let mut g = unsequenced;
    g.flags = flags;
    g
}
