// Which place of the record's order an op of the bench names.
ghost use Rattle.std.specs.Prelude.{◌≡◌, ◌+◌, ◌≤◌, ◌<◌, IfSome};
ghost use Rattle.script_set.specs.Setting.{number_place, cell_at, cell_place, channel_place, outgoing_place, incoming_place};

use places::{CHANNEL_WIDTH, CHANNELS, DISPATCHED, HELD, IN_POOL, MARKS, POOL, SENT, WORDS};
use pool::{IN_WIDTH, WIDTH};
use record::groups::CHANNELS as ALL;
use record::{INCOMING, OUTGOING};

// The flags, which follow the lists, and event data, which follows the words.
const FLAGS: usize = 155;

const EVENT: usize = 191;

// Op 20: a number.
pub fn number_place(which: u32) -> Option<usize>
    ensures value { result ≡ number_place which }
    ensures within { IfSome result (λ i. i < 1236) }
{
    let i = which as usize;
    match which {
        0..=42 => Some(i),
        43..=46 => Some(FLAGS + (i - 43)),
        47..=49 => Some(EVENT + (i - 47)),
        64..=95 => Some(WORDS + (i - 64)),
        96..=97 => Some(MARKS + (i - 96)),
        _ => None,
    }
}

// Of the numbers from a place on, up to one.
fn cell_at(at: usize, most: usize, which: u32) -> Option<usize>
    requires { at + most ≤ 1236 }
    ensures value { result ≡ cell_at at most which }
    ensures within { IfSome result (λ i. i ≤ at + most) }
{
    let i = which as usize;
    if i <= most { Some(at + i) } else { None }
}

// Op 21: a list's cell.
pub fn cell_place(list: u32, which: u32) -> Option<usize>
    ensures value { result ≡ cell_place list which }
    ensures within { IfSome result (λ i. i < 1236) }
{
    let k = list as usize;
    match list {
        0..=2 => cell_at(SENT + k * (OUTGOING + 1), OUTGOING, which),
        3 => cell_at(DISPATCHED, INCOMING, which),
        8..=15 => cell_at(CHANNELS + (k - 8) * CHANNEL_WIDTH + HELD, INCOMING, which),
        _ => None,
    }
}

// Op 22: a channel's number.
pub fn channel_place(channel: u32, which: u32) -> Option<usize>
    ensures value { result ≡ channel_place channel which }
    ensures within { IfSome result (λ i. i < 1236) }
{
    let c = channel as usize;
    if ALL <= c {
        return None;
    }
    cell_at(CHANNELS + c * CHANNEL_WIDTH, 3, which)
}

// Op 23: an outgoing slot.
pub fn outgoing_place(slot: u32) -> Option<usize>
    ensures value { result ≡ outgoing_place slot }
    ensures within { IfSome result (λ i. i + 26 ≤ 1236) }
{
    let s = slot as usize;
    if s < OUTGOING {
        Some(POOL + s * WIDTH)
    } else {
        None
    }
}

// Op 24: an incoming one.
pub fn incoming_place(slot: u32) -> Option<usize>
    ensures value { result ≡ incoming_place slot }
    ensures within { IfSome result (λ i. i + 6 ≤ 1236) }
{
    let s = slot as usize;
    if s < INCOMING {
        Some(IN_POOL + s * IN_WIDTH)
    } else {
        None
    }
}
