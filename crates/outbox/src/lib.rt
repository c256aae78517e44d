// What setting up is made of: the counters that step, the slot that a piece fills, the slots that are free. Lists and slots change in their places, the
// numbers once at the end.
#![tactic(auto)]

pub mod counting;
pub mod pieces;

ghost use Rattle.std.specs.Prelude.{◌≡◌, true, length, replicate};
ghost use Rattle.record.specs.Lists.{outgoing};
ghost use Rattle.record.specs.Room.{room_in};
ghost use Rattle.peer.specs.Damage.{sound};
ghost use Rattle.peer.specs.Updates.{with_lists};
ghost use Rattle.places.specs.Whole.{whole, record_length};
ghost use Rattle.outbox.specs.Counting.{counters_at};
ghost use Rattle.outbox.specs.Pieces.{lists_with};
ghost use Rattle.outbox.specs.CodeOutboxes.{queueing, outbox_of};
ghost use Rattle.outbox.specs.CodePlaces.{in_lists, placed, queued_by, recounted, closed};

use crate::counting::Counters;
use crate::pieces::Piece;
use cells::marks;
use command::bytes;
use numbers::counters::{Reliable, Unreliable};
use places::{RECORD, channels, groups, pools};
use queues::{Out, outgoing};
use record::OUTGOING;
use record::groups::CHANNELS;

// The data total, the host count, the counters of a channel. Which slots the lists name is marked beside it, a mark a slot.
#[derive(Clone, Copy)]
pub struct Outbox {
    pub total: u32,
    pub queued: u32,
    pub counters: Counters,
}

// The counters that a command on this channel may step; 0 for a channel that is not there.
fn counters_at(words: &[u32; RECORD], channel: u8) -> Counters
    ensures { result ≡ counters_at (whole words.now).flow.own_number (whole words.now).channels channel (whole words.now).unsequenced.outgoing }
{
    let flow = groups::flow(words);
    let own = flow.own_number;
    let group = groups::outgoing_group(words);
    if CHANNELS <= channel as usize {
        return Counters {
            own,
            reliable: Reliable(0),
            unreliable: Unreliable(0),
            group,
        };
    }
    let numbers = channels::numbers_of(words, channel as usize);
    let reliable = numbers.outgoing_reliable;
    let unreliable = numbers.outgoing_unreliable;
    Counters {
        own,
        reliable,
        unreliable,
        group,
    }
}

// What setting up on a channel changes, off the record; each slot that the lists name gets its mark.
pub fn open(words: &[u32; RECORD], channel: u8, marks: &mut [u8]) -> Outbox
    requires { marks.old ≡ replicate outgoing 0 }
    ensures { in_lists result marks.new (whole words.now).lists ≡ outbox_of (whole words.now).totals (whole words.now).waiting (whole words.now).flow (whole words.now).unsequenced (whole words.now).channels channel (whole words.now).lists }
{
    let totals = groups::totals(words);
    let waiting = groups::waiting(words);
    let counters = counters_at(words, channel);
    outgoing::mark(words, marks);
    Outbox {
        total: totals.outgoing,
        queued: waiting.queued,
        counters,
    }
}

// Flag 128 and a packet: send-reliable. Else outgoing.
fn join(words: &mut [u32; RECORD], x: Piece, s: u16)
    ensures { whole words.new ≡ with_lists (whole words.old) (lists_with (whole words.old).lists x s) }
{
    let c = x.command;
    if bytes::is_acknowledged(c.byte) {
        if x.packet {
            outgoing::push(words, Out::Reliable, s);
            return;
        }
    }
    outgoing::push(words, Out::Outgoing, s);
}

// The outbox once a piece is in a slot, with the counters that it left.
fn placed(o: Outbox, x: Piece, counters: Counters) -> Outbox
    ensures { result ≡ placed o x counters }
{
    Outbox {
        total: pieces::grown(o.total, x),
        queued: std::num::wrapping_add_u32(o.queued, 1),
        counters,
    }
}

// A piece in the lowest free slot: in its list, in the pool, and marked. With none free, nothing changes.
pub fn queue(words: &mut [u32; RECORD], marks: &mut [u8], o: Outbox, x: Piece) -> Outbox
    requires { length marks.old ≡ outgoing }
    ensures out { in_lists result marks.new (queueing (in_lists o marks.old (whole words.old).lists) x).outbox.lists ≡ (queueing (in_lists o marks.old (whole words.old).lists) x).outbox }
    ensures kept { whole words.new ≡ queued_by (whole words.old) (queueing (in_lists o marks.old (whole words.old).lists) x) }
{
    let free = marks::lowest(marks);
    let Some(s) = free else {
        return o;
    };
    let c = x.command;
    let stamped = counting::stamp(c.byte, c.channel, x.offset, o.counters);
    let slot = pieces::slot_of(x, stamped, std::num::wrapping_add_u32(o.queued, 1));
    join(words, x, s);
    pools::put_outgoing(words, s as usize, slot);
    marks[s as usize] = 1;
    let counters = stamped.counters;
    placed(o, x, counters)
}

// The counters back: the peer's own number, its group, the channel's two.
fn recount(words: &mut [u32; RECORD], channel: u8, k: Counters)
    ensures { whole words.new ≡ recounted (whole words.old) channel k }
{
    let own = k.own;
    let mut flow = groups::flow(words);
    flow.own_number = own;
    groups::put_flow(words, flow);
    groups::put_outgoing_group(words, k.group);
    if CHANNELS <= channel as usize {
        return;
    }
    channels::put_outgoing(words, channel as usize, k.reliable, k.unreliable);
}

// The outbox's numbers back, once all is queued.
pub fn close(words: &mut [u32; RECORD], channel: u8, o: Outbox)
    ensures { whole words.new ≡ closed (whole words.old) channel o }
{
    let mut totals = groups::totals(words);
    totals.outgoing = o.total;
    groups::put_totals(words, totals);
    let mut waiting = groups::waiting(words);
    waiting.queued = o.queued;
    groups::put_waiting(words, waiting);
    recount(words, channel, o.counters);
}

// How many slots are free: in a sound record the lists name slots that are there, each once.
pub fn room_in(words: &[u32; RECORD]) -> usize
    requires { sound (whole words.now) ≡ true }
    ensures { result ≡ room_in (whole words.now).lists }
{
    let sent = outgoing::count(words, Out::Sent);
    let reliable = outgoing::count(words, Out::Reliable);
    let waiting = outgoing::count(words, Out::Outgoing);
    OUTGOING - sent - reliable - waiting
}
