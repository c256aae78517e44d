// The link on the lent record: the reply is the result, and the record is altered where the caller keeps it.
ghost use Rattle.std.specs.Prelude.{◌≡◌};
ghost use Rattle.peer.specs.Outcome.{Came};
ghost use Rattle.places.specs.Whole.{whole};
ghost use Rattle.link.specs.Steps.{answer_of, calls, Own};

use crate::calls::{Call, Reply};
use peer::settings::Settings;
use places::RECORD;

// Each call by its own function, those of a side by that side's; only the receiving side uses the stores and the datagram.
pub fn call(
    words: &mut [u32; RECORD],
    settings: Settings,
    call: Call,
    store: &mut [u8],
    second: &mut [u8],
    datagram: &[u8],
) -> Reply
    ensures came { Came answer_of (calls settings call datagram.now (record { peer = whole words.old; store = store.old; second = second.old })) result (record { peer = whole words.new; store = store.new; second = second.new }) }
    ensures own { Own call result }
{
    match call {
        Call::Reset => Reply::Called(lifecycle::reset(words, settings)),
        Call::Begin { mtu, channels } => Reply::Called(lifecycle::begin(
            words, settings, mtu, channels,
        )),
        Call::SetState { state } => Reply::Called(lifecycle::set_state(words, settings, state)),
        Call::Outward(call) => Reply::Outward(link_out::call(words, settings, call)),
        Call::Inward(call) => Reply::Inward(link_in::call(
            words, settings, call, store, second, datagram,
        )),
    }
}
