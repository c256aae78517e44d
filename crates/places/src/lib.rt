// The record in the numbers that the caller lends: where each part of it stands, and what reads and writes it there.
#![tactic(auto)]

pub mod channels;
pub mod groups;
pub mod pools;
pub mod window;

// How many numbers a record has.
pub const RECORD: usize = 1236;

// The lists sent, send-reliable, outgoing and dispatched.
pub const SENT: usize = 43;

pub const RELIABLE: usize = 76;

pub const OUTGOING: usize = 109;

pub const DISPATCHED: usize = 142;

// The words of the unsequenced window.
pub const WORDS: usize = 159;

// The channels; the numbers of a channel, and its list among them.
pub const CHANNELS: usize = 194;

pub const CHANNEL_WIDTH: usize = 17;

pub const HELD: usize = 4;

// The outgoing slots, and the incoming ones.
pub const POOL: usize = 330;

pub const IN_POOL: usize = 1162;

// C-11: the marks of a block's pieces.
pub const MARKS: usize = 1234;
