// The reset values and the state numbers, which belong to the peer's own type, and the reset record.
ghost use Rattle.std.specs.Prelude.{◌≡◌, [], ◌∷◌};
ghost use Rattle.peer.specs.Fresh.{fresh_peer};

use crate::Peer;
use numbers::consts;
use numbers::counters::{Group, Reliable};
use record::groups::{
    Bandwidth, CHANNELS, Flow, Ids, Limits, Lists, Loss, Standing, Throttling, Times, Totals,
    Trips, Unsequenced, Waiting,
};
use record::{INCOMING, OUTGOING, fresh};

// What a reset keeps of the record.
#[derive(Clone, Copy)]
pub struct Kept {
    pub incoming_peer: u16,
    pub outgoing_session: u8,
    pub incoming_session: u8,
    pub reserved: u16,
    pub queued: u32,
}

impl Peer {
    // The states, in public ENet's order.
    pub const DISCONNECTED: u32 = 0;

    pub const CONNECTING: u32 = 1;

    pub const ACKNOWLEDGING_CONNECT: u32 = 2;

    pub const CONNECTION_PENDING: u32 = 3;

    pub const CONNECTION_SUCCEEDED: u32 = 4;

    pub const CONNECTED: u32 = 5;

    pub const DISCONNECT_LATER: u32 = 6;

    pub const DISCONNECTING: u32 = 7;

    pub const ACKNOWLEDGING_DISCONNECT: u32 = 8;

    pub const ZOMBIE: u32 = 9;

    pub fn states() -> [u32; 10]
        ensures { result ≡ 0 ∷ 1 ∷ 2 ∷ 3 ∷ 4 ∷ 5 ∷ 6 ∷ 7 ∷ 8 ∷ 9 ∷ [] }
    {
        [
            Peer::DISCONNECTED,
            Peer::CONNECTING,
            Peer::ACKNOWLEDGING_CONNECT,
            Peer::CONNECTION_PENDING,
            Peer::CONNECTION_SUCCEEDED,
            Peer::CONNECTED,
            Peer::DISCONNECT_LATER,
            Peer::DISCONNECTING,
            Peer::ACKNOWLEDGING_DISCONNECT,
            Peer::ZOMBIE,
        ]
    }

    // The reset values.
    pub const OUTGOING_PEER: u16 = consts::PROTOCOL_MAXIMUM_PEER_ID;

    pub const WINDOW: u32 = consts::PROTOCOL_MAXIMUM_WINDOW_SIZE;

    pub const STANDING: Standing = Standing {
        state: Peer::DISCONNECTED,
        channels: 0,
    };

    pub const BANDWIDTH: Bandwidth = Bandwidth {
        incoming: 0,
        outgoing: 0,
        incoming_epoch: 0,
        outgoing_epoch: 0,
    };

    pub const TOTALS: Totals = Totals {
        incoming: 0,
        outgoing: 0,
    };

    pub const TIMES: Times = Times {
        last_send: 0,
        last_receive: 0,
        next_timeout: 0,
        earliest_timeout: 0,
    };

    pub const LOSS: Loss = Loss {
        epoch: 0,
        sent: 0,
        lost: 0,
        loss: 0,
        variance: 0,
    };

    pub const THROTTLING: Throttling = Throttling {
        value: consts::PEER_DEFAULT_PACKET_THROTTLE,
        limit: consts::PEER_PACKET_THROTTLE_SCALE,
        counter: 0,
        epoch: 0,
        acceleration: consts::PEER_PACKET_THROTTLE_ACCELERATION,
        deceleration: consts::PEER_PACKET_THROTTLE_DECELERATION,
        interval: consts::PEER_PACKET_THROTTLE_INTERVAL,
    };

    pub const LIMITS: Limits = Limits {
        ping: consts::PEER_PING_INTERVAL,
        timeout: consts::PEER_TIMEOUT_LIMIT,
        minimum: consts::PEER_TIMEOUT_MINIMUM,
        maximum: consts::PEER_TIMEOUT_MAXIMUM,
    };

    pub const TRIPS: Trips = Trips {
        last: consts::PEER_DEFAULT_ROUND_TRIP_TIME,
        lowest: consts::PEER_DEFAULT_ROUND_TRIP_TIME,
        last_variance: 0,
        highest_variance: 0,
        mean: consts::PEER_DEFAULT_ROUND_TRIP_TIME,
        variance: 0,
    };

    // The reset record, but for what a reset keeps and the MTU.
    pub const BLANK: Peer = Peer {
        ids: Ids {
            outgoing_peer: Peer::OUTGOING_PEER,
            incoming_peer: 0,
            connect: 0,
            outgoing_session: 0,
            incoming_session: 0,
        },
        standing: Peer::STANDING,
        bandwidth: Peer::BANDWIDTH,
        totals: Peer::TOTALS,
        times: Peer::TIMES,
        loss: Peer::LOSS,
        throttling: Peer::THROTTLING,
        limits: Peer::LIMITS,
        trips: Peer::TRIPS,
        flow: Flow {
            mtu: 0,
            window: Peer::WINDOW,
            transit: 0,
            own_number: Reliable(0),
        },
        lists: Lists {
            sent: fresh::NO_OUT,
            send_reliable: fresh::NO_OUT,
            outgoing: fresh::NO_OUT,
            dispatched: fresh::NO_IN,
        },
        unsequenced: Unsequenced {
            flags: 0,
            reserved: 0,
            incoming: Group(0),
            outgoing: Group(0),
            words: [0; consts::UNSEQUENCED_WORDS],
        },
        waiting: Waiting {
            event: 0,
            total: 0,
            queued: 0,
        },
        channels: [fresh::NO_CHANNEL; CHANNELS],
        outgoing: [fresh::NO_OUTGOING; OUTGOING],
        incoming: [fresh::NO_INCOMING; INCOMING],
        marks: fresh::NO_MARKS,
    };

    // The reset record.
    pub fn fresh(mtu: u32, kept: Kept) -> Peer
        ensures { result ≡ fresh_peer mtu kept }
    {
        let mut p = Peer::BLANK;
        p.ids.incoming_peer = kept.incoming_peer;
        p.ids.outgoing_session = kept.outgoing_session;
        p.ids.incoming_session = kept.incoming_session;
        p.flow.mtu = mtu;
        p.unsequenced.reserved = kept.reserved;
        p.waiting.queued = kept.queued;
        p
    }
}
