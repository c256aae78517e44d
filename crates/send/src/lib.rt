// Send: a packet becomes commands, one or a piece each.
#![tactic(auto)]

ghost use Rattle.std.specs.Prelude.{◌≡◌, true, ◌≤◌, length};
ghost use Rattle.numbers.specs.Limits.{most_mtu};
ghost use Rattle.record.specs.Lists.{outgoing};
ghost use Rattle.record.specs.Room.{room_in};
ghost use Rattle.peer.specs.Damage.{sound};
ghost use Rattle.peer.specs.Gate.{then};
ghost use Rattle.peer.specs.Outcome.{Came};
ghost use Rattle.peer.specs.Calls.{answer_of};
ghost use Rattle.places.specs.Whole.{whole, record_length};
ghost use Rattle.outbox.specs.CodeOutboxes.{queueing};
ghost use Rattle.outbox.specs.CodePlaces.{in_lists, queued_by};
ghost use Rattle.packets.specs.Refusals.{send_gate, queue_gate};
ghost use Rattle.packets.specs.CodePlans.{packet_of, piece_at};
ghost use Rattle.send.specs.Calls.{fragment, sends};

use numbers::refusals::Refusal;
use outbox::Outbox;
use outbox::counting::Counters;
use packets::plans::Packet;
use peer::gate::Lent;
use peer::settings::Settings;
use places::{RECORD, groups};
use record::OUTGOING;

// The packet as it goes out, by the record's MTU and the channel's two numbers.
fn packet_of(
    words: &[u32; RECORD],
    settings: Settings,
    k: Counters,
    channel: u8,
    size: u32,
    flags: u32,
) -> Packet
    requires { (whole words.now).flow.mtu ≤ most_mtu }
    ensures { result ≡ packet_of flags k.reliable k.unreliable channel size (fragment settings (whole words.now)) }
{
    let flow = groups::flow(words);
    let fragment = packets::fragment_length(flow.mtu, settings.checksum) as u16;
    packets::plans::packet_of(flags, k, channel, size, fragment)
}

// 1, 2, 3, 4, 5 of so many commands, by the record's state, channel count and free slots.
fn plan_gate(
    words: &[u32; RECORD],
    settings: Settings,
    channel: u8,
    size: u32,
    count: u32,
) -> Result<(), Refusal>
    requires { sound (whole words.now) ≡ true }
    ensures { result ≡ then (send_gate settings channel size (whole words.now).standing) (queue_gate count (room_in (whole words.now).lists)) }
{
    let standing = groups::standing(words);
    let free = outbox::room_in(words);
    packets::plans::plan_gate(settings, standing, channel, size, count, free)
}

// Command j of a packet, at its offset, in the lowest free slot.
fn queue(
    words: &mut [u32; RECORD],
    marks: &mut [u8],
    o: Outbox,
    packet: Packet,
    j: u32,
    offset: u32,
) -> Outbox
    requires { length marks.old ≡ outgoing }
    ensures out { in_lists result marks.new (queueing (in_lists o marks.old (whole words.old).lists) (piece_at packet j offset)).outbox.lists ≡ (queueing (in_lists o marks.old (whole words.old).lists) (piece_at packet j offset)).outbox }
    ensures kept { whole words.new ≡ queued_by (whole words.old) (queueing (in_lists o marks.old (whole words.old).lists) (piece_at packet j offset)) }
{
    outbox::queue(words, marks, o, packets::plans::piece_at(packet, j, offset))
}

// Refused by 11, 13, 1, 2, 3, 4 and 5, in this order.
pub fn send(
    words: &mut [u32; RECORD],
    settings: Settings,
    channel: u8,
    length: u32,
    flags: u32,
) -> Result<(), Refusal>
    ensures { Came answer_of (sends settings channel length flags (whole words.old)) result (whole words.new) }
{
    gate::ask(words, settings, Lent::Nothing)?;
    let mut marks = [0u8; OUTGOING];
    let mut o = outbox::open(words, channel, &mut marks);
    let packet = packet_of(words, settings, o.counters, channel, length, flags);
    let count = packets::plans::count_of(packet);
    plan_gate(words, settings, channel, length, count)?;
    let mut offset: u32 = 0;
    for j in 0..count {
        o = queue(words, &mut marks, o, packet, j, offset);
        offset = packets::plans::next_at(packet, offset);
    }
    outbox::close(words, channel, o);
    Ok(())
}
