// The calls of the receiving side as data, and one function that makes each of them.
#![tactic(auto)]

pub mod calls;

ghost use Rattle.std.specs.Prelude.{◌≡◌};
ghost use Rattle.peer.specs.Outcome.{Came};
ghost use Rattle.places.specs.Whole.{whole};
ghost use Rattle.link_in.specs.Steps.{answer_of, calls_in, Own};

use crate::calls::{Call, Reply};
use peer::settings::Settings;
use places::RECORD;

// Only the arrivals use the stores and the datagram, and only the fragment's the second store.
pub fn call(
    words: &mut [u32; RECORD],
    settings: Settings,
    call: Call,
    store: &mut [u8],
    second: &mut [u8],
    datagram: &[u8],
) -> Reply
    ensures came { Came answer_of (calls_in settings call datagram.now (record { peer = whole words.old; store = store.old; second = second.old })) result (record { peer = whole words.new; store = store.new; second = second.new }) }
    ensures own { Own call result }
{
    match call {
        Call::UnsequencedArrival { arrival, group } => Reply::Arrived(arrive_unsequenced::arrive(
            words, settings, store, datagram, arrival, group,
        )),
        Call::ReliableArrival { arrival } => Reply::Arrived(arrive_reliable::arrive(
            words, settings, store, datagram, arrival,
        )),
        Call::FragmentArrival { piece } => Reply::Arrived(arrive_fragment::arrive(
            words, settings, store, second, datagram, piece,
        )),
        Call::Dispatch { channel } => Reply::Called(dispatch::dispatch(words, settings, channel)),
        Call::Receive => Reply::Received(receive::receive(words, settings)),
    }
}
