// The calls of the sending side as data, and their reply.
use acknowledge::Event;
use numbers::counters::Reliable;
use numbers::refusals::Refusal;
use outbox::pieces::Piece;
use record::groups::Outgoing;
use send_step::heads::Queue;
use throttle::Turn;
use timeouts::Checked;

#[derive(Clone, Copy)]
pub enum Call {
    Ping,
    Send {
        channel: u8,
        length: u32,
        flags: u32,
    },
    Setup {
        piece: Piece,
    },
    SendStep {
        queue: Queue,
        time: u32,
    },
    Acknowledgement {
        channel: u8,
        number: Reliable,
        sent: u16,
        clock: u32,
    },
    TimeoutCheck {
        clock: u32,
    },
    Throttle {
        sample: u32,
    },
}

// Each call's own reply: ping, send and setup share one.
#[derive(Clone, Copy)]
pub enum Reply {
    Called(Result<(), Refusal>),
    Stepped(Result<Option<Outgoing>, Refusal>),
    Acknowledged(Result<Event, Refusal>),
    Checked(Result<Checked, Refusal>),
    Throttled(Result<Turn, Refusal>),
}
