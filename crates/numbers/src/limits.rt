// The ranges that more than one room asks for.
ghost use Rattle.std.specs.Prelude.{◌≡◌};
ghost use Rattle.numbers.specs.Limits.{mtu_fits};

use crate::consts;

// "MTU | 576 to 4,096"
pub fn mtu_fits(mtu: u32) -> bool
    ensures { result ≡ mtu_fits mtu }
{
    (consts::PROTOCOL_MINIMUM_MTU..=consts::PROTOCOL_MAXIMUM_MTU).contains(&mtu)
}
