// The groups of the record, read from their places and written there: small structs by value.
ghost use Rattle.std.specs.Prelude.{◌≡◌, length};
ghost use Rattle.record.specs.Updates.{with_flags, with_outgoing_group};
ghost use Rattle.peer.specs.Updates.{with_standing, with_totals, with_times, with_loss, with_throttling, with_flow, with_unsequenced, with_waiting, with_marks};
ghost use Rattle.places.specs.Whole.{whole, record_length};
ghost use Rattle.places.specs.Updates.{with_trips};

use crate::RECORD;
use numbers::counters::{Group, Reliable};
use numbers::widths::{low16, wide16};
use record::groups::{
    Flow, Limits, Loss, Marks, Standing, Throttling, Times, Totals, Trips, Waiting,
};

pub fn standing(words: &[u32; RECORD]) -> Standing
    ensures { result ≡ (whole words.now).standing }
{
    Standing {
        state: words[5],
        channels: words[6],
    }
}

pub fn put_standing(words: &mut [u32; RECORD], x: Standing)
    ensures { whole words.new ≡ with_standing (whole words.old) x }
{
    words[5] = x.state;
    words[6] = x.channels;
}

pub fn totals(words: &[u32; RECORD]) -> Totals
    ensures { result ≡ (whole words.now).totals }
{
    Totals {
        incoming: words[11],
        outgoing: words[12],
    }
}

pub fn put_totals(words: &mut [u32; RECORD], x: Totals)
    ensures { whole words.new ≡ with_totals (whole words.old) x }
{
    words[11] = x.incoming;
    words[12] = x.outgoing;
}

pub fn times(words: &[u32; RECORD]) -> Times
    ensures { result ≡ (whole words.now).times }
{
    Times {
        last_send: words[13],
        last_receive: words[14],
        next_timeout: words[15],
        earliest_timeout: words[16],
    }
}

pub fn put_times(words: &mut [u32; RECORD], x: Times)
    ensures { whole words.new ≡ with_times (whole words.old) x }
{
    words[13] = x.last_send;
    words[14] = x.last_receive;
    words[15] = x.next_timeout;
    words[16] = x.earliest_timeout;
}

pub fn loss(words: &[u32; RECORD]) -> Loss
    ensures { result ≡ (whole words.now).loss }
{
    Loss {
        epoch: words[17],
        sent: words[18],
        lost: words[19],
        loss: words[20],
        variance: words[21],
    }
}

pub fn put_loss(words: &mut [u32; RECORD], x: Loss)
    ensures { whole words.new ≡ with_loss (whole words.old) x }
{
    words[17] = x.epoch;
    words[18] = x.sent;
    words[19] = x.lost;
    words[20] = x.loss;
    words[21] = x.variance;
}

pub fn throttling(words: &[u32; RECORD]) -> Throttling
    ensures { result ≡ (whole words.now).throttling }
{
    Throttling {
        value: words[22],
        limit: words[23],
        counter: words[24],
        epoch: words[25],
        acceleration: words[26],
        deceleration: words[27],
        interval: words[28],
    }
}

pub fn put_throttling(words: &mut [u32; RECORD], x: Throttling)
    ensures { whole words.new ≡ with_throttling (whole words.old) x }
{
    words[22] = x.value;
    words[23] = x.limit;
    words[24] = x.counter;
    words[25] = x.epoch;
    words[26] = x.acceleration;
    words[27] = x.deceleration;
    words[28] = x.interval;
}

pub fn limits(words: &[u32; RECORD]) -> Limits
    ensures { result ≡ (whole words.now).limits }
{
    Limits {
        ping: words[29],
        timeout: words[30],
        minimum: words[31],
        maximum: words[32],
    }
}

pub fn trips(words: &[u32; RECORD]) -> Trips
    ensures { result ≡ (whole words.now).trips }
{
    Trips {
        last: words[33],
        lowest: words[34],
        last_variance: words[35],
        highest_variance: words[36],
        mean: words[37],
        variance: words[38],
    }
}

pub fn put_trips(words: &mut [u32; RECORD], x: Trips)
    ensures { whole words.new ≡ with_trips (whole words.old) x }
{
    words[33] = x.last;
    words[34] = x.lowest;
    words[35] = x.last_variance;
    words[36] = x.highest_variance;
    words[37] = x.mean;
    words[38] = x.variance;
}

pub fn waiting(words: &[u32; RECORD]) -> Waiting
    ensures { result ≡ (whole words.now).waiting }
{
    Waiting {
        event: words[191],
        total: words[192],
        queued: words[193],
    }
}

pub fn put_waiting(words: &mut [u32; RECORD], x: Waiting)
    ensures { whole words.new ≡ with_waiting (whole words.old) x }
{
    words[191] = x.event;
    words[192] = x.total;
    words[193] = x.queued;
}

pub fn flow(words: &[u32; RECORD]) -> Flow
    ensures { result ≡ (whole words.now).flow }
{
    let reliable = Reliable(low16(words[42]));
    Flow {
        mtu: words[39],
        window: words[40],
        transit: words[41],
        own_number: reliable,
    }
}

pub fn put_flow(words: &mut [u32; RECORD], x: Flow)
    ensures { whole words.new ≡ with_flow (whole words.old) x }
{
    let n = x.own_number;
    let own = wide16(n.0);
    words[39] = x.mtu;
    words[40] = x.window;
    words[41] = x.transit;
    words[42] = own;
}

// The peer's flags.
pub fn flags(words: &[u32; RECORD]) -> u16
    ensures { result ≡ (whole words.now).unsequenced.flags }
{
    low16(words[155])
}

pub fn put_flags(words: &mut [u32; RECORD], x: u16)
    ensures { whole words.new ≡ with_unsequenced (whole words.old) (with_flags (whole words.old).unsequenced x) }
{
    words[155] = wide16(x);
}

// The last unsequenced group that went out.
pub fn outgoing_group(words: &[u32; RECORD]) -> Group
    ensures { result ≡ (whole words.now).unsequenced.outgoing }
{
    Group(low16(words[158]))
}

pub fn put_outgoing_group(words: &mut [u32; RECORD], x: Group)
    ensures { whole words.new ≡ with_unsequenced (whole words.old) (with_outgoing_group (whole words.old).unsequenced x) }
{
    words[158] = wide16(x.0);
}

// C-11: the marks of a block's pieces.
pub fn marks(words: &[u32; RECORD]) -> Marks
    ensures { result ≡ (whole words.now).marks }
{
    Marks {
        low: words[1234],
        high: words[1235],
    }
}

pub fn put_marks(words: &mut [u32; RECORD], x: Marks)
    ensures { whole words.new ≡ with_marks (whole words.old) x }
{
    words[1234] = x.low;
    words[1235] = x.high;
}
