// One order of places (C-12): of each number of the lent record how many bits it has, what it may be, and whether it is written. Whatever shows, writes, reads or
// sets the record's numbers walks over this table.
#![tactic(auto)]

mod kinds;
mod parts;
pub mod used;

ghost use Rattle.std.specs.Prelude.{◌≡◌, ◌<◌, length, get_or};
ghost use Rattle.places.specs.Whole.{whole, record_length};
ghost use Rattle.order.specs.Table.{table, nowhere, lists_places, things_places};

use parts::FLAGS;
use places::{CHANNEL_WIDTH, CHANNELS, DISPATCHED, IN_POOL, MARKS, POOL, RECORD, SENT};
use pool::{IN_WIDTH, WIDTH};
use record::{INCOMING, OUTGOING};

#[derive(Clone, Copy)]
pub struct Place {
    // The number that stands there, cut to its bits; 0 where it is not written.
    pub number: u32,
    pub bits: u32,
    // The most that may be read there: a list's length is never above its pool.
    pub most: u32,
    // Whether it is an outgoing command's byte, which has to name a command.
    pub is_command: bool,
    pub is_written: bool,
}

// A list of the outgoing pool: its length, and a cell a slot.
const LIST: usize = 33;

// Place i of the record.
pub fn place_at(words: &[u32; RECORD], i: usize) -> Place
    ensures { result ≡ get_or (table (whole words.now)) i nowhere }
{
    if i < SENT {
        return parts::own(words, i);
    }
    if i < FLAGS {
        return lists(words, i - SENT);
    }
    if i < CHANNELS {
        return parts::group(words, i - FLAGS);
    }
    things(words, i - CHANNELS)
}

// The lists: three of the outgoing pool, and the dispatched.
fn lists(words: &[u32; RECORD], j: usize) -> Place
    requires { j < 112 }
    ensures { result ≡ get_or (lists_places (whole words.now).lists) j nowhere }
{
    if j < DISPATCHED - SENT {
        return parts::list(words, SENT + j / LIST * LIST, OUTGOING, j % LIST);
    }
    parts::list(words, DISPATCHED, INCOMING, j - (DISPATCHED - SENT))
}

// The channels, the slots of both pools, the marks.
fn things(words: &[u32; RECORD], j: usize) -> Place
    ensures { result ≡ get_or (things_places (whole words.now)) j nowhere }
{
    if j < POOL - CHANNELS {
        return parts::channel(words, j / CHANNEL_WIDTH, j % CHANNEL_WIDTH);
    }
    if j < IN_POOL - CHANNELS {
        let k = j - (POOL - CHANNELS);
        return parts::outgoing(words, k / WIDTH, k % WIDTH);
    }
    if j < MARKS - CHANNELS {
        let k = j - (IN_POOL - CHANNELS);
        return parts::incoming(words, k / IN_WIDTH, k % IN_WIDTH);
    }
    parts::mark(words, j - (MARKS - CHANNELS))
}
