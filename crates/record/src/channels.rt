// Which channel a command may be on.
ghost use Rattle.std.specs.Prelude.{◌≡◌};
ghost use Rattle.record.specs.Channels.{on_channel};

use crate::groups::ITSELF;

// A channel below the count, or the peer itself.
pub fn on_channel(channel: u8, count: u32) -> bool
    ensures { result ≡ on_channel channel count }
{
    if (channel as u32) < count {
        return true;
    }
    channel == ITSELF
}
