// The link: one function that makes every call of document 01, on the record that the caller lends (`lent`) and on a record by value.
#![tactic(auto)]

pub mod calls;
pub mod lent;

ghost use Rattle.std.specs.Prelude.{◌≡◌};
ghost use Rattle.peer.specs.Outcome.{Came};
ghost use Rattle.link.specs.Steps.{answer_of, calls, Own};

use calls::{Call, Reply};
use peer::Peer;
use peer::settings::Settings;
use places::RECORD;

#[derive(Clone, Copy)]
pub struct Linked {
    pub peer: Peer,
    pub reply: Reply,
}

// The lent link on the record's numbers.
pub fn call(
    peer: Peer,
    settings: Settings,
    call: Call,
    store: &mut [u8],
    second: &mut [u8],
    datagram: &[u8],
) -> Linked
    ensures came { Came answer_of (calls settings call datagram.now (record { peer = peer; store = store.old; second = second.old })) result.reply (record { peer = result.peer; store = store.new; second = second.new }) }
    ensures own { Own call result.reply }
{
    let mut words = [0u32; RECORD];
    copies::writing::write(&mut words, peer);
    let reply = lent::call(&mut words, settings, call, store, second, datagram);
    let after = copies::meant(&words);
    Linked { peer: after, reply }
}
