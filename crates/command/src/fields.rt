// A command, with the packed structs' fields in their order. The union of the source is an enum.
use numbers::counters::{Group, Reliable, Unreliable};

#[derive(Clone, Copy)]
pub struct Connect {
    pub peer: u16,
    pub incoming_session: u8,
    pub outgoing_session: u8,
    pub mtu: u32,
    pub window: u32,
    pub channels: u32,
    pub incoming_bandwidth: u32,
    pub outgoing_bandwidth: u32,
    pub interval: u32,
    pub acceleration: u32,
    pub deceleration: u32,
    pub id: u32,
}

#[derive(Clone, Copy)]
pub struct Fragment {
    pub length: u16,
    pub count: u32,
    pub number: u32,
    pub total: u32,
    pub offset: u32,
}

#[derive(Clone, Copy)]
pub enum Fields {
    Acknowledge {
        number: Reliable,
        time: u16,
    },
    Connect {
        connect: Connect,
        data: u32,
    },
    VerifyConnect {
        connect: Connect,
    },
    Disconnect {
        data: u32,
    },
    Ping,
    SendReliable {
        length: u16,
    },
    SendUnreliable {
        number: Unreliable,
        length: u16,
    },
    SendFragment {
        start: Reliable,
        fragment: Fragment,
    },
    SendUnsequenced {
        group: Group,
        length: u16,
    },
    BandwidthLimit {
        incoming: u32,
        outgoing: u32,
    },
    ThrottleConfigure {
        interval: u32,
        acceleration: u32,
        deceleration: u32,
    },
    SendUnreliableFragment {
        start: Unreliable,
        fragment: Fragment,
    },
}

// The whole command byte is kept: its low four bits are the command's number, 64 and 128 its flags.
#[derive(Clone, Copy)]
pub struct Command {
    pub byte: u8,
    pub channel: u8,
    pub number: Reliable,
    pub fields: Fields,
}
