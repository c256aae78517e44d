// The parts of a record with nothing in them.
use crate::groups::{Channel, Incoming, Marks, Outgoing};
use crate::incoming::InList;
use crate::outgoing::OutList;
use crate::{INCOMING, OUTGOING};
use command::fields::{Command, Fields};
use numbers::counters::{Reliable, Unreliable};

pub const NO_OUT: OutList = OutList {
    len: 0,
    slots: [0; OUTGOING],
};

pub const NO_IN: InList = InList {
    len: 0,
    slots: [0; INCOMING],
};

// A channel of all 0.
pub const NO_CHANNEL: Channel = Channel {
    outgoing_reliable: Reliable(0),
    outgoing_unreliable: Unreliable(0),
    incoming_reliable: Reliable(0),
    incoming_unreliable: Unreliable(0),
    held: NO_IN,
};

pub const NO_OUTGOING: Outgoing = Outgoing {
    reliable: Reliable(0),
    unreliable: Unreliable(0),
    sent: 0,
    timeout: 0,
    queued: 0,
    offset: 0,
    length: 0,
    attempts: 0,
    packet: false,
    command: Command {
        byte: 0,
        channel: 0,
        number: Reliable(0),
        fields: Fields::Acknowledge {
            number: Reliable(0),
            time: 0,
        },
    },
};

pub const NO_INCOMING: Incoming = Incoming {
    byte: 0,
    channel: 0,
    number: Reliable(0),
    fragments: 0,
    remaining: 0,
    length: 0,
};

// "0 with no block"
pub const NO_MARKS: Marks = Marks { low: 0, high: 0 };
