// What sending changes, group by group: the head's slot, the lists, the peer's numbers.
ghost use Rattle.std.specs.Prelude.{◌≡◌, ◌+◌, min};
ghost use Rattle.send_step.specs.Steps.{is_acknowledged, attempted, packet_sent, flow_sent};

use command::bytes;
use numbers::wrapping;
use record::groups::{Flow, Loss, Outgoing, Trips};

// The two lists that a send step may name.
#[derive(Clone, Copy)]
pub enum Queue {
    Outgoing,
    Reliable,
}

// Whether the head's command asks for an answer.
pub(crate) fn is_acknowledged(o: Outgoing) -> bool
    ensures { result ≡ is_acknowledged o }
{
    let c = o.command;
    bytes::is_acknowledged(c.byte)
}

// One more, held at 65,535.
fn more(attempts: u16) -> u16
    ensures { result ≡ min (attempts + 1) 65535 }
{
    if attempts < 65535 {
        return attempts + 1;
    }
    65535
}

// One more attempt, the sent time, and the timeout if it is 0.
pub(crate) fn attempted(o: Outgoing, trips: Trips, time: u32) -> Outgoing
    ensures { result ≡ attempted o trips time }
{
    let mut slot = o;
    slot.sent = time;
    slot.attempts = more(o.attempts);
    if o.timeout == 0 {
        slot.timeout = wrapping::round_trip_timeout(trips.mean, trips.variance);
    }
    slot
}

// Packets sent + 1.
pub(crate) fn packet_sent(loss: Loss) -> Loss
    ensures { result ≡ packet_sent loss }
{
    let mut l = loss;
    l.sent = std::num::wrapping_add_u32(loss.sent, 1);
    l
}

// In transit grows by an acknowledged packet's piece length.
pub(crate) fn flow_sent(flow: Flow, o: Outgoing) -> Flow
    ensures { result ≡ flow_sent flow o }
{
    let mut f = flow;
    if !is_acknowledged(o) {
        return f;
    }
    if o.packet {
        f.transit = std::num::wrapping_add_u32(flow.transit, o.length as u32);
    }
    f
}
