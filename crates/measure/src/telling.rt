// A reply as one number: the refusal's, or the first value of what was done, or 0.
ghost use Rattle.std.specs.Prelude.{◌≡◌};
ghost use Rattle.peer.specs.Calls as calls;
ghost use Rattle.send_step.specs.Calls as stepping;
ghost use Rattle.acknowledge.specs.Calls as acknowledging;
ghost use Rattle.timeouts.specs.Calls as checking;
ghost use Rattle.round_trip.specs.Calls as throttling;
ghost use Rattle.arrival.specs.Arrivals as arriving;
ghost use Rattle.receive.specs.Calls as receiving;
ghost use Rattle.link_out.specs.Steps as outward;
ghost use Rattle.link_in.specs.Steps as inward;
ghost use Rattle.link.specs.Steps as linking;
ghost use Rattle.measure.specs.Measured.{told};

use acknowledge::Event;
use arrival::Arrived;
use numbers::refusals::Refusal;
use receive::Received;
use record::groups::Outgoing;
use throttle::Turn;
use timeouts::Checked;

// Reset, begin, set state, setup, send, ping and dispatch.
pub(crate) fn called(reply: Result<(), Refusal>) -> u32
    ensures { result ≡ told (calls.answer_of reply) }
{
    match reply {
        Ok(()) => 0,
        Err(why) => u32::from(why),
    }
}

// 1 for a head.
pub(crate) fn stepped(reply: Result<Option<Outgoing>, Refusal>) -> u32
    ensures { result ≡ told (stepping.answer_of reply) }
{
    match reply {
        Ok(None) => 0,
        Ok(Some(_)) => 1,
        Err(why) => u32::from(why),
    }
}

// 1 for done, the events as the rule numbers them.
pub(crate) fn acknowledged(reply: Result<Event, Refusal>) -> u32
    ensures { result ≡ told (acknowledging.answer_of reply) }
{
    match reply {
        Ok(Event::Passed) => 0,
        Ok(Event::Done) => 1,
        Ok(Event::Connect) => 2,
        Ok(Event::Disconnect) => 3,
        Ok(Event::DisconnectNow) => 4,
        Err(why) => u32::from(why),
    }
}

// 1 for done, 3 for given up.
pub(crate) fn checked(reply: Result<Checked, Refusal>) -> u32
    ensures { result ≡ told (checking.answer_of reply) }
{
    match reply {
        Ok(Checked::Done) => 1,
        Ok(Checked::Disconnect) => 3,
        Err(why) => u32::from(why),
    }
}

// 1 for raised; lowered is below 0 and reads as 0.
pub(crate) fn throttled(reply: Result<Turn, Refusal>) -> u32
    ensures { result ≡ told (throttling.answer_of reply) }
{
    match reply {
        Ok(Turn::Held | Turn::Lowered) => 0,
        Ok(Turn::Raised) => 1,
        Err(why) => u32::from(why),
    }
}

// 1 for stored.
pub(crate) fn arrived(reply: Result<Arrived, Refusal>) -> u32
    ensures { result ≡ told (arriving.answer_of reply) }
{
    match reply {
        Ok(Arrived::Passed) => 0,
        Ok(Arrived::Stored) => 1,
        Err(why) => u32::from(why),
    }
}

// 1 for a packet, 2 for a block.
pub(crate) fn received(reply: Result<Option<Received>, Refusal>) -> u32
    ensures { result ≡ told (receiving.answer_of reply) }
{
    match reply {
        Ok(None) => 0,
        Ok(Some(Received::Packet { .. })) => 1,
        Ok(Some(Received::Block { .. })) => 2,
        Err(why) => u32::from(why),
    }
}

fn outward(reply: link_out::calls::Reply) -> u32
    ensures { result ≡ told (outward.answer_of reply) }
{
    match reply {
        link_out::calls::Reply::Called(reply) => called(reply),
        link_out::calls::Reply::Stepped(reply) => stepped(reply),
        link_out::calls::Reply::Acknowledged(reply) => acknowledged(reply),
        link_out::calls::Reply::Checked(reply) => checked(reply),
        link_out::calls::Reply::Throttled(reply) => throttled(reply),
    }
}

fn inward(reply: link_in::calls::Reply) -> u32
    ensures { result ≡ told (inward.answer_of reply) }
{
    match reply {
        link_in::calls::Reply::Arrived(reply) => arrived(reply),
        link_in::calls::Reply::Called(reply) => called(reply),
        link_in::calls::Reply::Received(reply) => received(reply),
    }
}

pub fn linked(reply: link::calls::Reply) -> u32
    ensures { result ≡ told (linking.answer_of reply) }
{
    match reply {
        link::calls::Reply::Called(reply) => called(reply),
        link::calls::Reply::Outward(reply) => outward(reply),
        link::calls::Reply::Inward(reply) => inward(reply),
    }
}
