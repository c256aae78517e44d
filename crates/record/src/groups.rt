// The groups of a peer's record, in document 01's order: each changes together. Above each field stand its name in the source and what it is.
use crate::incoming::InList;
use crate::outgoing::OutList;
use command::fields::Command;
use numbers::consts::UNSEQUENCED_WORDS;
use numbers::counters::{Group, Reliable, Unreliable};

// The channels of a peer.
pub const CHANNELS: usize = 8;

// The channel that is the peer itself.
pub const ITSELF: u8 = 255;

// The bytes of a cell of the store, one a slot of the incoming pool.
pub const CELL: u32 = 4096;

pub const STORE: usize = 49152;

// C-11: the bytes of the second store, in which a block is put together.
pub const SECOND: usize = 32768;

#[derive(Clone, Copy)]
pub struct Ids {
    // outgoing_peer_id: ours at the other side
    pub outgoing_peer: u16,
    // incoming_peer_id: its place here
    pub incoming_peer: u16,
    // connect_id: names the connection
    pub connect: u32,
    // outgoing_session_id: stands in the headers that go out
    pub outgoing_session: u8,
    // incoming_session_id: stands in the headers that come
    pub incoming_session: u8,
}

#[derive(Clone, Copy)]
pub struct Standing {
    // state: one of the ten
    pub state: u32,
    // channel_count: how many channels there are
    pub channels: u32,
}

#[derive(Clone, Copy)]
pub struct Bandwidth {
    // incoming_bandwidth: what the other side can take, bytes a second
    pub incoming: u32,
    // outgoing_bandwidth: what the other side can send, bytes a second
    pub outgoing: u32,
    // incoming_bandwidth_throttle_epoch: since when
    pub incoming_epoch: u32,
    // outgoing_bandwidth_throttle_epoch: since when
    pub outgoing_epoch: u32,
}

#[derive(Clone, Copy)]
pub struct Totals {
    // incoming_data_total: bytes
    pub incoming: u32,
    // outgoing_data_total: bytes, commands and their packets
    pub outgoing: u32,
}

#[derive(Clone, Copy)]
pub struct Times {
    // last_send_time: when a datagram last went out; no call reads it
    pub last_send: u32,
    // last_receive_time: when an acknowledgement last came; 0 before the first
    pub last_receive: u32,
    // next_timeout: when the first sent command is due
    pub next_timeout: u32,
    // earliest_timeout: when the first of those that timed out was sent; 0 for none
    pub earliest_timeout: u32,
}

#[derive(Clone, Copy)]
pub struct Loss {
    // packet_loss_epoch: since when they are counted
    pub epoch: u32,
    // packets_sent: since the epoch
    pub sent: u32,
    // packets_lost: since the epoch
    pub lost: u32,
    // packet_loss: the mean
    pub loss: u32,
    // packet_loss_variance: of that mean
    pub variance: u32,
}

#[derive(Clone, Copy)]
pub struct Throttling {
    // packet_throttle: of 32, how many packets go
    pub value: u32,
    // packet_throttle_limit: the most that it is raised to
    pub limit: u32,
    // packet_throttle_counter: which of the 32 is next
    pub counter: u32,
    // packet_throttle_epoch: since when the round trips are gathered
    pub epoch: u32,
    // packet_throttle_acceleration: by how much it is raised
    pub acceleration: u32,
    // packet_throttle_deceleration: by how much it is lowered
    pub deceleration: u32,
    // packet_throttle_interval: how long the round trips are gathered
    pub interval: u32,
}

#[repr(C)]
#[derive(Clone, Copy)]
pub struct Limits {
    // ping_interval: no call reads it
    pub ping: u32,
    // timeout_limit: of attempts, before a peer may be given up
    pub timeout: u32,
    // timeout_minimum: given up past the limit of attempts and this time
    pub minimum: u32,
    // timeout_maximum: given up past this time in any case
    pub maximum: u32,
}

#[derive(Clone, Copy)]
pub struct Trips {
    // last_round_trip_time: of the interval before
    pub last: u32,
    // lowest_round_trip_time: of this interval
    pub lowest: u32,
    // last_round_trip_time_variance: of the interval before, the highest
    pub last_variance: u32,
    // highest_round_trip_time_variance: of this interval
    pub highest_variance: u32,
    // round_trip_time: the mean
    pub mean: u32,
    // round_trip_time_variance: of that mean
    pub variance: u32,
}

#[derive(Clone, Copy)]
pub struct Flow {
    // mtu: the bytes of the longest datagram
    pub mtu: u32,
    // window_size: of reliable data in transit; no call reads it
    pub window: u32,
    // reliable_data_in_transit: bytes sent and not acknowledged
    pub transit: u32,
    // outgoing_reliable_sequence_number: of channel 255, the peer itself
    pub own_number: Reliable,
}

#[derive(Clone, Copy)]
pub struct Lists {
    // sent_reliable_commands: sent, not acknowledged
    pub sent: OutList,
    // outgoing_send_reliable_commands: reliable packets that wait
    pub send_reliable: OutList,
    // outgoing_commands: what else waits
    pub outgoing: OutList,
    // dispatched_commands: ready to be received
    pub dispatched: InList,
}

#[derive(Clone, Copy)]
pub struct Unsequenced {
    // flags: bit 1, something is to be received
    pub flags: u16,
    // reserved: not used
    pub reserved: u16,
    // incoming_unsequenced_group: where the window begins
    pub incoming: Group,
    // outgoing_unsequenced_group: the last one given
    pub outgoing: Group,
    // unsequenced_window: a bit a group
    pub words: [u32; UNSEQUENCED_WORDS],
}

#[derive(Clone, Copy)]
pub struct Waiting {
    // event_data: of the connect; no call reads it
    pub event: u32,
    // total_waiting_data: bytes stored and not received
    pub total: u32,
    // total_queued of ENetHost: the host count
    pub queued: u32,
}

#[derive(Clone, Copy)]
pub struct Channel {
    // outgoing_reliable_sequence_number: the last one given
    pub outgoing_reliable: Reliable,
    // outgoing_unreliable_sequence_number: the last one given since that
    pub outgoing_unreliable: Unreliable,
    // incoming_reliable_sequence_number: the last dispatched
    pub incoming_reliable: Reliable,
    // incoming_unreliable_sequence_number: not used, unreliable arrivals are left out
    pub incoming_unreliable: Unreliable,
    // incoming_reliable_commands: arrived, not yet next
    pub held: InList,
}

#[derive(Clone, Copy)]
pub struct Outgoing {
    // reliable_sequence_number: the one that it got
    pub reliable: Reliable,
    // unreliable_sequence_number: the one that it got
    pub unreliable: Unreliable,
    // sent_time: of the last attempt
    pub sent: u32,
    // round_trip_timeout: how long an answer may take; 0 before the first attempt
    pub timeout: u32,
    // queue_time: the host count when it was queued
    pub queued: u32,
    // fragment_offset: where in its packet it begins
    pub offset: u32,
    // fragment_length: how many bytes of its packet go with it
    pub length: u16,
    // send_attempts: how often it was sent
    pub attempts: u16,
    // packet, 1 or 0 for whether there is one
    pub packet: bool,
    // command: byte, channel, number and fields, as they go out
    pub command: Command,
}

#[derive(Clone, Copy)]
pub struct Incoming {
    // command.header.command: the whole byte
    pub byte: u8,
    // command.header.channel_id: the one that it came on
    pub channel: u8,
    // reliable_sequence_number: the one that it bears
    pub number: Reliable,
    // fragment_count: 0 for a packet that came whole
    pub fragments: u32,
    // fragments_remaining: pieces that are not here yet
    pub remaining: u32,
    // packet.data_length: bytes in its cell
    pub length: u32,
}

// C-11: which pieces of the block are stored. Piece k is bit k of the low word, or bit k - 32 of the high one.
#[derive(Clone, Copy)]
pub struct Marks {
    // fragments: of pieces 0 to 31
    pub low: u32,
    // fragments: of pieces 32 to 63
    pub high: u32,
}
