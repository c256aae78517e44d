// The record that the numbers mean, by value.
ghost use Rattle.std.specs.Prelude.{◌≡◌, map, ◌+◌, ◌≤◌, ◌<◌, length};
ghost use Rattle.lists.specs.Rows.{low, section, row_at};
ghost use Rattle.record.specs.Sizes.{channels};
ghost use Rattle.places.specs.Updates.{channel_at};
ghost use Rattle.places.specs.Whole.{whole, record_length, out_list_from, in_list_from};

use numbers::widths::{low8, low16};
use peer::Peer;
use places::{RECORD, channels, pools};
use record::groups::{Bandwidth, CHANNELS, Channel, Ids, Incoming, Lists, Outgoing};
use record::incoming::InList;
use record::outgoing::OutList;
use record::{INCOMING, OUTGOING};

pub(crate) fn ids(words: &[u32; RECORD]) -> Ids
    ensures { result ≡ (whole words.now).ids }
{
    Ids {
        outgoing_peer: low16(words[0]),
        incoming_peer: low16(words[1]),
        connect: words[2],
        outgoing_session: low8(words[3]),
        incoming_session: low8(words[4]),
    }
}

pub(crate) fn bandwidth(words: &[u32; RECORD]) -> Bandwidth
    ensures { result ≡ (whole words.now).bandwidth }
{
    Bandwidth {
        incoming: words[7],
        outgoing: words[8],
        incoming_epoch: words[9],
        outgoing_epoch: words[10],
    }
}

// So many cells, from a place on.
fn cells<const N: usize>(words: &[u32], at: usize) -> [u16; N]
    requires { at + N ≤ length words.now }
    ensures { result ≡ map low (section at N words.now) }
{
    std::array::from_fn(|k| low16(words[at + k]))
}

// A list of the outgoing pool, from its place.
fn out_list(words: &[u32], at: usize) -> OutList
    requires { at + 32 + 1 ≤ length words.now }
    ensures { result ≡ out_list_from (row_at at 32 words.now) }
{
    OutList {
        len: low16(words[at]),
        slots: cells(words, at + 1),
    }
}

// And of the incoming pool.
fn in_list(words: &[u32], at: usize) -> InList
    requires { at + 12 + 1 ≤ length words.now }
    ensures { result ≡ in_list_from (row_at at 12 words.now) }
{
    InList {
        len: low16(words[at]),
        slots: cells(words, at + 1),
    }
}

pub(crate) fn lists(words: &[u32; RECORD]) -> Lists
    ensures { result ≡ (whole words.now).lists }
{
    let sent = out_list(words, places::SENT);
    let reliable = out_list(words, places::RELIABLE);
    let outgoing = out_list(words, places::OUTGOING);
    let dispatched = in_list(words, places::DISPATCHED);
    Lists {
        sent,
        send_reliable: reliable,
        outgoing,
        dispatched,
    }
}

fn channel(words: &[u32; RECORD], i: usize) -> Channel
    requires { i < channels }
    ensures { result ≡ channel_at (whole words.now) i }
{
    let n = channels::numbers_of(words, i);
    let at = places::CHANNELS + i * places::CHANNEL_WIDTH + places::HELD;
    Channel {
        outgoing_reliable: n.outgoing_reliable,
        outgoing_unreliable: n.outgoing_unreliable,
        incoming_reliable: n.incoming_reliable,
        incoming_unreliable: n.incoming_unreliable,
        held: in_list(words, at),
    }
}

pub(crate) fn all_channels(words: &[u32; RECORD]) -> [Channel; CHANNELS]
    ensures { result ≡ (whole words.now).channels }
{
    std::array::from_fn(|i| channel(words, i))
}

pub(crate) fn outgoing(words: &[u32; RECORD]) -> [Outgoing; OUTGOING]
    ensures { result ≡ (whole words.now).outgoing }
{
    std::array::from_fn(|i| pools::outgoing_at(words, i))
}

pub(crate) fn incoming(words: &[u32; RECORD]) -> [Incoming; INCOMING]
    ensures { result ≡ (whole words.now).incoming }
{
    std::array::from_fn(|i| pools::incoming_at(words, i))
}

// The record that a slice of so many numbers means.
pub fn read(words: &[u32]) -> Peer
    requires { length words.now ≡ record_length }
    ensures { result ≡ whole words.now }
{
    crate::meant(words.try_into().unwrap())
}
