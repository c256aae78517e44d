// The numbers that mean a record.
ghost use Rattle.std.specs.Prelude.{◌≡◌, ◌∷◌, map, ◌+◌, ◌≤◌, ◌<◌, length, set};
ghost use Rattle.std.proofs.Math.Seq.{paste};
ghost use Rattle.lists.specs.Rows.{low};
ghost use Rattle.record.specs.Sizes.{channels};
ghost use Rattle.peer.specs.Updates.{rebuilt, with_lists, with_channels, with_outgoing};
ghost use Rattle.places.specs.Updates.{with_incoming};
ghost use Rattle.places.specs.Whole.{whole, record_length, out_list_from, in_list_from};
ghost use Rattle.places.specs.Updates.{with_fixed};

use numbers::widths::{wide8, wide16};
use peer::Peer;
use places::{RECORD, channels, groups, pools, window};
use record::groups::{
    Bandwidth, CHANNELS, Channel, Flow, Ids, Incoming, Limits, Lists, Loss, Outgoing, Standing,
    Throttling, Times, Totals, Trips,
};
use record::incoming::InList;
use record::outgoing::OutList;
use record::{INCOMING, OUTGOING};

fn put_ids(words: &mut [u32; RECORD], x: Ids)
    ensures { whole words.new ≡ with_fixed (whole words.old) x (whole words.old).bandwidth (whole words.old).limits }
{
    let outgoing_peer = wide16(x.outgoing_peer);
    let incoming_peer = wide16(x.incoming_peer);
    let outgoing_session = wide8(x.outgoing_session);
    let incoming_session = wide8(x.incoming_session);
    words[0] = outgoing_peer;
    words[1] = incoming_peer;
    words[2] = x.connect;
    words[3] = outgoing_session;
    words[4] = incoming_session;
}

fn put_bandwidth(words: &mut [u32; RECORD], x: Bandwidth)
    ensures { whole words.new ≡ with_fixed (whole words.old) (whole words.old).ids x (whole words.old).limits }
{
    words[7] = x.incoming;
    words[8] = x.outgoing;
    words[9] = x.incoming_epoch;
    words[10] = x.outgoing_epoch;
}

fn put_limits(words: &mut [u32; RECORD], x: Limits)
    ensures { whole words.new ≡ with_fixed (whole words.old) (whole words.old).ids (whole words.old).bandwidth x }
{
    words[29] = x.ping;
    words[30] = x.timeout;
    words[31] = x.minimum;
    words[32] = x.maximum;
}

// The groups that no call but reset changes.
fn put_fixed(words: &mut [u32; RECORD], ids: Ids, bandwidth: Bandwidth, limits: Limits)
    ensures { whole words.new ≡ with_fixed (whole words.old) ids bandwidth limits }
{
    put_ids(words, ids);
    put_bandwidth(words, bandwidth);
    put_limits(words, limits);
}

// The other groups of single numbers, but for the window's, what waits and the marks.
fn put_numbers(
    words: &mut [u32; RECORD],
    standing: Standing,
    totals: Totals,
    times: Times,
    loss: Loss,
    throttling: Throttling,
    trips: Trips,
    flow: Flow,
)
    ensures { whole words.new ≡ rebuilt (whole words.old) standing totals times loss throttling trips flow (whole words.old).lists (whole words.old).unsequenced (whole words.old).waiting (whole words.old).channels (whole words.old).outgoing (whole words.old).incoming (whole words.old).marks }
{
    groups::put_standing(words, standing);
    groups::put_totals(words, totals);
    groups::put_times(words, times);
    groups::put_loss(words, loss);
    groups::put_throttling(words, throttling);
    groups::put_trips(words, trips);
    groups::put_flow(words, flow);
}

// Cells, to a place and on.
fn put_cells(words: &mut [u32], at: usize, slots: &[u16])
    requires { at + length slots.now ≤ length words.old }
    ensures is { words.new ≡ paste words.old at slots.now (length slots.now) }
    ensures low { map low slots.now ≡ slots.now }
{
    for (k, slot) in slots.iter().enumerate() {
        words[at + k] = wide16(*slot);
    }
}

// A list's length and its cells, to their place.
fn put_list(words: &mut [u32], at: usize, len: u16, slots: &[u16])
    requires { at + length slots.now + 1 ≤ length words.old }
    ensures is { words.new ≡ paste words.old at (len ∷ slots.now) (length slots.now + 1) }
    ensures low { map low (len ∷ slots.now) ≡ len ∷ slots.now }
{
    put_cells(words, at + 1, slots);
    let n = wide16(len);
    words[at] = n;
}

// A list of the outgoing pool, to its place.
fn put_out(words: &mut [u32], at: usize, x: OutList)
    requires { at + 32 + 1 ≤ length words.old }
    ensures is { words.new ≡ paste words.old at (x.len ∷ x.slots) 33 }
    ensures long { length x.slots ≡ 32 }
    ensures back { out_list_from (x.len ∷ x.slots) ≡ x }
{
    put_list(words, at, x.len, &x.slots);
}

// And of the incoming pool.
fn put_in(words: &mut [u32], at: usize, x: InList)
    requires { at + 12 + 1 ≤ length words.old }
    ensures is { words.new ≡ paste words.old at (x.len ∷ x.slots) 13 }
    ensures long { length x.slots ≡ 12 }
    ensures back { in_list_from (x.len ∷ x.slots) ≡ x }
{
    put_list(words, at, x.len, &x.slots);
}

fn put_lists(words: &mut [u32; RECORD], x: Lists)
    ensures { whole words.new ≡ with_lists (whole words.old) x }
{
    put_out(words, places::SENT, x.sent);
    put_out(words, places::RELIABLE, x.send_reliable);
    put_out(words, places::OUTGOING, x.outgoing);
    put_in(words, places::DISPATCHED, x.dispatched);
}

fn put_channel(words: &mut [u32; RECORD], i: usize, x: Channel)
    requires { i < channels }
    ensures { whole words.new ≡ with_channels (whole words.old) (set (whole words.old).channels i x) }
{
    channels::put_outgoing(words, i, x.outgoing_reliable, x.outgoing_unreliable);
    channels::put_incoming(words, i, x.incoming_reliable, x.incoming_unreliable);
    let at = places::CHANNELS + i * places::CHANNEL_WIDTH + places::HELD;
    put_in(words, at, x.held);
}

fn put_channels(words: &mut [u32; RECORD], all: [Channel; CHANNELS])
    ensures { whole words.new ≡ with_channels (whole words.old) all }
{
    for (i, c) in all.iter().enumerate() {
        put_channel(words, i, *c);
    }
}

fn put_outgoing(words: &mut [u32; RECORD], all: [Outgoing; OUTGOING])
    ensures { whole words.new ≡ with_outgoing (whole words.old) all }
{
    for (i, slot) in all.iter().enumerate() {
        pools::put_outgoing(words, i, *slot);
    }
}

fn put_incoming(words: &mut [u32; RECORD], all: [Incoming; INCOMING])
    ensures { whole words.new ≡ with_incoming (whole words.old) all }
{
    for (i, slot) in all.iter().enumerate() {
        pools::put_incoming(words, i, *slot);
    }
}

pub fn write(words: &mut [u32; RECORD], peer: Peer)
    ensures { whole words.new ≡ peer }
{
    let channels = peer.channels;
    let outgoing = peer.outgoing;
    let incoming = peer.incoming;
    put_fixed(words, peer.ids, peer.bandwidth, peer.limits);
    put_numbers(
        words,
        peer.standing,
        peer.totals,
        peer.times,
        peer.loss,
        peer.throttling,
        peer.trips,
        peer.flow,
    );
    put_lists(words, peer.lists);
    window::put_unsequenced(words, peer.unsequenced);
    groups::put_waiting(words, peer.waiting);
    put_channels(words, channels);
    put_outgoing(words, outgoing);
    put_incoming(words, incoming);
    groups::put_marks(words, peer.marks);
}
