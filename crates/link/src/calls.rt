// Every call of document 01 and of C-11 as data, and its reply.
// Those of a side are one case: ping, send, setup, send step, acknowledgement, timeout check and throttle; arrivals, dispatch and receive.
use numbers::refusals::Refusal;

#[derive(Clone, Copy)]
pub enum Call {
    Reset,
    Begin { mtu: u32, channels: u32 },
    SetState { state: u32 },
    Outward(link_out::calls::Call),
    Inward(link_in::calls::Call),
}

// Each call's own reply: reset, begin and set state share one.
#[derive(Clone, Copy)]
pub enum Reply {
    Called(Result<(), Refusal>),
    Outward(link_out::calls::Reply),
    Inward(link_in::calls::Reply),
}
