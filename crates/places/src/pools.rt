// The slots of both pools, each in its place.
ghost use Rattle.std.specs.Prelude.{◌≡◌, length, get_or, set};
ghost use Rattle.record.specs.Fresh.{no_outgoing, no_incoming};
ghost use Rattle.record.specs.Updates.{with_attempt};
ghost use Rattle.peer.specs.Updates.{with_outgoing};
ghost use Rattle.pool.specs.Slots.{brief_of};
ghost use Rattle.places.specs.Whole.{whole, record_length};
ghost use Rattle.places.specs.Updates.{with_incoming};

use crate::{IN_POOL, MARKS, POOL, RECORD};
use pool::Brief;
use record::groups::{Incoming, Outgoing};

// Outgoing slot i; past the pool's end an empty one.
pub fn outgoing_at(words: &[u32; RECORD], i: usize) -> Outgoing
    ensures { result ≡ get_or (whole words.now).outgoing i no_outgoing }
{
    pool::slot_at(&words[POOL..IN_POOL], i)
}

// The same in brief: without its command's fields.
pub fn brief_at(words: &[u32; RECORD], i: usize) -> Brief
    ensures { result ≡ brief_of (get_or (whole words.now).outgoing i no_outgoing) }
{
    pool::brief_at(&words[POOL..IN_POOL], i)
}

// Outgoing slot i becomes this one; past the pool's end nothing changes.
pub fn put_outgoing(words: &mut [u32; RECORD], i: usize, slot: Outgoing)
    ensures { whole words.new ≡ with_outgoing (whole words.old) (set (whole words.old).outgoing i slot) }
{
    pool::put(&mut words[POOL..IN_POOL], i, slot);
}

// It gets this sent time, timeout and count of attempts; past the pool's end nothing changes.
pub fn put_attempt(words: &mut [u32; RECORD], i: usize, sent: u32, timeout: u32, attempts: u16)
    ensures { whole words.new ≡ with_outgoing (whole words.old) (set (whole words.old).outgoing i (with_attempt (get_or (whole words.old).outgoing i no_outgoing) sent timeout attempts)) }
{
    pool::put_attempt(&mut words[POOL..IN_POOL], i, sent, timeout, attempts);
}

// Incoming slot i; past the pool's end an empty one.
pub fn incoming_at(words: &[u32; RECORD], i: usize) -> Incoming
    ensures { result ≡ get_or (whole words.now).incoming i no_incoming }
{
    pool::in_slot_at(&words[IN_POOL..MARKS], i)
}

// Incoming slot i becomes this one; past the pool's end nothing changes.
pub fn put_incoming(words: &mut [u32; RECORD], i: usize, slot: Incoming)
    ensures { whole words.new ≡ with_incoming (whole words.old) (set (whole words.old).incoming i slot) }
{
    pool::put_in(&mut words[IN_POOL..MARKS], i, slot);
}
