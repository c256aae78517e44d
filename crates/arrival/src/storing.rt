// What "stored" means, on what it changes: the lowest free incoming slot, its cell of the store, the waiting total.
ghost use Rattle.std.specs.Prelude.{◌≡◌, length};
ghost use Rattle.arrival.specs.Storing.{incoming_of, awaiting, laid, filled, free_slot};
ghost use Rattle.cells.specs.Free.{marked_all};
ghost use Rattle.record.specs.Damage.{below, held};
ghost use Rattle.places.specs.Whole.{whole, record_length};

use cells::marks;
use numbers::counters::Reliable;
use places::{RECORD, groups};
use record::INCOMING;
use record::groups::{CELL, CHANNELS, Incoming, Waiting};

// The slot of a packet that came whole.
pub fn incoming_of(byte: u8, channel: u8, number: Reliable, length: u32) -> Incoming
    ensures { result ≡ incoming_of byte channel number length }
{
    Incoming {
        byte,
        channel,
        number,
        fragments: 0,
        remaining: 0,
        length,
    }
}

pub fn awaiting(waiting: Waiting, length: u32) -> Waiting
    ensures { result ≡ awaiting waiting length }
{
    let mut w = waiting;
    w.total = std::num::wrapping_add_u32(waiting.total, length);
    w
}

// So many bytes of the datagram from a place on, to a place of the store, where they are there and it has room.
pub fn lay(store: &mut [u8], to: u32, datagram: &[u8], place: u32, n: u32)
    ensures { store.new ≡ laid store.old to datagram.now place n }
{
    let at = to as usize;
    let from = place as usize;
    let count = n as usize;
    if store.len() < at + count {
        return;
    }
    if datagram.len() < from + count {
        return;
    }
    store[at..at + count].copy_from_slice(&datagram[from..from + count]);
}

// To cell s.
pub fn fill(store: &mut [u8], s: u16, datagram: &[u8], place: u32, n: u32)
    ensures { store.new ≡ filled store.old s datagram.now place n }
{
    lay(store, s as u32 * CELL, datagram, place, n);
}

// The slots that the channels below the count hold get a mark too.
fn mark_held(words: &[u32; RECORD], count: u32, marks: &mut [u8])
    ensures { marks.new ≡ marked_all marks.old (held (below (whole words.now).channels count)) }
{
    for k in 0..CHANNELS.min(count as usize) {
        queues::held::mark(words, k, marks);
    }
}

// The lowest free incoming slot.
pub fn free_slot(words: &[u32; RECORD]) -> Option<u16>
    ensures { result ≡ free_slot (whole words.now).lists (whole words.now).channels (whole words.now).standing.channels }
{
    let mut marks = [0u8; INCOMING];
    queues::dispatched::mark(words, &mut marks);
    let standing = groups::standing(words);
    mark_held(words, standing.channels, &mut marks);
    marks::lowest(&marks)
}
