// The parts of a peer's record: its groups, and the lists of slot numbers, one type for each pool (the linked lists of the source).
#![tactic(auto)]

pub mod channels;
pub mod flags;
pub mod fresh;
pub mod groups;
pub mod incoming;
pub mod outgoing;

// The pools' sizes, in this one place.
pub const OUTGOING: usize = 32;

pub const INCOMING: usize = 12;
