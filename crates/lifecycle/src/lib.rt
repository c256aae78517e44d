// Reset, begin, set state.
#![tactic(auto)]

ghost use Rattle.std.specs.Prelude.{◌≡◌, ◌+◌, ◌≤◌, length, replicate};
ghost use Rattle.lifecycle.specs.Calls.{begin_fits, resets, begins, sets_state, kept};
ghost use Rattle.std.proofs.Math.Seq.{paste};
ghost use Rattle.peer.specs.Outcome.{Came};
ghost use Rattle.peer.specs.Calls.{answer_of};
ghost use Rattle.peer.specs.Fresh.{fresh_ids, fresh_peer};
ghost use Rattle.peer.specs.Updates.{with_unsequenced};
ghost use Rattle.places.specs.Whole.{whole, record_length};
ghost use Rattle.lifecycle.specs.Updates.{with_ids, with_limits, with_reserved};

use numbers::counters::Reliable;
use numbers::limits;
use numbers::refusals::Refusal;
use numbers::widths::{low8, low16, wide8, wide16};
use peer::Peer;
use peer::defaults::Kept;
use peer::gate::Lent;
use peer::settings::Settings;
use places::{RECORD, groups};
use record::groups::{CHANNELS, Flow, Limits, Waiting};

fn begin_fits(mtu: u32, count: u32, already: u32) -> bool
    ensures { result ≡ begin_fits mtu count already }
{
    if !limits::mtu_fits(mtu) {
        return false;
    }
    if count < 1 {
        return false;
    }
    if CHANNELS < count as usize {
        return false;
    }
    already == 0
}

// Needs no sound record.
pub fn reset(words: &mut [u32; RECORD], settings: Settings) -> Result<(), Refusal>
    ensures { Came answer_of (resets settings (whole words.old)) result (whole words.new) }
{
    if !settings.is_fit() {
        return Err(Refusal::OutOfRange);
    }
    let keep = kept(words);
    clear(words, 0, RECORD);
    refresh(words, settings.mtu, keep);
    Ok(())
}

// MTU and channels of all 0, before any channel was there.
pub fn begin(
    words: &mut [u32; RECORD],
    settings: Settings,
    mtu: u32,
    count: u32,
) -> Result<(), Refusal>
    ensures { Came answer_of (begins settings mtu count (whole words.old)) result (whole words.new) }
{
    gate::ask(words, settings, Lent::Nothing)?;
    let mut standing = groups::standing(words);
    if !begin_fits(mtu, count, standing.channels) {
        return Err(Refusal::OutOfRange);
    }
    standing.channels = count;
    groups::put_standing(words, standing);
    let mut flow = groups::flow(words);
    flow.mtu = mtu;
    groups::put_flow(words, flow);
    clear(words, places::CHANNELS, CHANNELS * places::CHANNEL_WIDTH);
    Ok(())
}

// Only the state changes.
pub fn set_state(words: &mut [u32; RECORD], settings: Settings, state: u32) -> Result<(), Refusal>
    ensures { Came answer_of (sets_state settings state (whole words.old)) result (whole words.new) }
{
    gate::ask(words, settings, Lent::Nothing)?;
    if Peer::ZOMBIE < state {
        return Err(Refusal::OutOfRange);
    }
    let mut standing = groups::standing(words);
    standing.state = state;
    groups::put_standing(words, standing);
    Ok(())
}

// n numbers from place `at` on are 0.
fn clear(words: &mut [u32], at: usize, n: usize)
    requires { at + n ≤ length words.old }
    ensures { words.new ≡ paste words.old at (replicate n 0) n }
{
    words[at..at + n].fill(0);
}

// What a reset keeps.
fn kept(words: &[u32; RECORD]) -> Kept
    ensures { result ≡ kept (whole words.now) }
{
    let incoming_peer = low16(words[1]);
    let outgoing_session = low8(words[3]);
    let incoming_session = low8(words[4]);
    let reserved = low16(words[156]);
    Kept {
        incoming_peer,
        outgoing_session,
        incoming_session,
        reserved,
        queued: words[193],
    }
}

// The reset record, of numbers that are all 0.
fn refresh(words: &mut [u32; RECORD], mtu: u32, keep: Kept)
    requires { words.old ≡ replicate record_length 0 }
    ensures { whole words.new ≡ fresh_peer mtu keep }
{
    put_ids(words, keep);
    groups::put_throttling(words, Peer::THROTTLING);
    put_limits(words, Peer::LIMITS);
    groups::put_trips(words, Peer::TRIPS);
    let flow = Flow {
        mtu,
        window: Peer::WINDOW,
        transit: 0,
        own_number: Reliable(0),
    };
    groups::put_flow(words, flow);
    put_reserved(words, keep.reserved);
    let waiting = Waiting {
        event: 0,
        total: 0,
        queued: keep.queued,
    };
    groups::put_waiting(words, waiting);
}

fn put_ids(words: &mut [u32; RECORD], keep: Kept)
    ensures { whole words.new ≡ with_ids (whole words.old) (fresh_ids keep) }
{
    let to = wide16(Peer::OUTGOING_PEER);
    let from = wide16(keep.incoming_peer);
    let outgoing = wide8(keep.outgoing_session);
    let incoming = wide8(keep.incoming_session);
    words[0] = to;
    words[1] = from;
    words[2] = 0;
    words[3] = outgoing;
    words[4] = incoming;
}

fn put_limits(words: &mut [u32; RECORD], x: Limits)
    ensures { whole words.new ≡ with_limits (whole words.old) x }
{
    words[29] = x.ping;
    words[30] = x.timeout;
    words[31] = x.minimum;
    words[32] = x.maximum;
}

fn put_reserved(words: &mut [u32; RECORD], x: u16)
    ensures { whole words.new ≡ with_unsequenced (whole words.old) (with_reserved (whole words.old).unsequenced x) }
{
    words[156] = wide16(x);
}
