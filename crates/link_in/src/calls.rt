// The calls of the receiving side as data, and their reply.
use arrival::{Arrival, Arrived};
use arrive_fragment::Piece;
use numbers::counters::Group;
use numbers::refusals::Refusal;
use receive::Received;

#[derive(Clone, Copy)]
pub enum Call {
    UnsequencedArrival { arrival: Arrival, group: Group },
    ReliableArrival { arrival: Arrival },
    FragmentArrival { piece: Piece },
    Dispatch { channel: u8 },
    Receive,
}

// Each call's own reply: the arrivals share one.
#[derive(Clone, Copy)]
pub enum Reply {
    Arrived(Result<Arrived, Refusal>),
    Called(Result<(), Refusal>),
    Received(Result<Option<Received>, Refusal>),
}
