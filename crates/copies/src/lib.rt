// A record by value as the numbers that mean it, and back: what the link by value stands on.
#![tactic(auto)]

pub mod reading;
pub mod writing;

ghost use Rattle.std.specs.Prelude.{◌≡◌};
ghost use Rattle.places.specs.Whole.{whole};

use crate::reading::{all_channels, bandwidth, ids, incoming, lists, outgoing};
use peer::Peer;
use places::{RECORD, groups, window};

// The record that an array of numbers means.
pub fn meant(words: &[u32; RECORD]) -> Peer
    ensures { result ≡ whole words.now }
{
    let ids = ids(words);
    let standing = groups::standing(words);
    let bandwidth = bandwidth(words);
    let totals = groups::totals(words);
    let times = groups::times(words);
    let loss = groups::loss(words);
    let throttling = groups::throttling(words);
    let limits = groups::limits(words);
    let trips = groups::trips(words);
    let flow = groups::flow(words);
    let lists = lists(words);
    let unsequenced = window::unsequenced(words);
    let waiting = groups::waiting(words);
    let channels = all_channels(words);
    let outgoing = outgoing(words);
    let incoming = incoming(words);
    let marks = groups::marks(words);
    Peer {
        ids,
        standing,
        bandwidth,
        totals,
        times,
        loss,
        throttling,
        limits,
        trips,
        flow,
        lists,
        unsequenced,
        waiting,
        channels,
        outgoing,
        incoming,
        marks,
    }
}
