// The lists of the lent record by name, altered in their places: the three of the outgoing pool, the dispatched, those that the channels hold.
#![tactic(auto)]

pub mod dispatched;
pub mod held;
pub mod outgoing;

// A list of the outgoing pool.
#[derive(Clone, Copy)]
pub enum Out {
    Sent,
    Reliable,
    Outgoing,
}
