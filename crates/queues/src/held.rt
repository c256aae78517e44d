// The list of packets that a channel holds until those before them come.
ghost use Rattle.std.specs.Prelude.{◌≡◌, map, ◌<◌, length, get_or, drop};
ghost use Rattle.cells.specs.Runs.{inserted};
ghost use Rattle.cells.specs.Free.{marked_all};
ghost use Rattle.record.specs.Lists.{incoming, in_items, in_keep};
ghost use Rattle.lists.specs.Rows.{low};
ghost use Rattle.record.specs.Sizes.{channels};
ghost use Rattle.places.specs.Whole.{whole, record_length};
ghost use Rattle.queues.specs.Queues.{held_of, held_place, put_held};

use places::{CHANNEL_WIDTH, CHANNELS, HELD, RECORD};
use record::INCOMING;

fn place_of(i: usize) -> usize
    requires { i < channels }
    ensures { result ≡ held_place i }
{
    CHANNELS + i * CHANNEL_WIDTH + HELD
}

// How many slots it names.
pub fn count(words: &[u32; RECORD], i: usize) -> usize
    requires { i < channels }
    ensures { result ≡ length (in_items (held_of (whole words.now) i)) }
{
    lists::count(words, place_of(i), INCOMING)
}

// The slot at place k; 0 where there is no such place.
pub fn slot_at(words: &[u32; RECORD], i: usize, k: usize) -> u16
    requires { i < channels }
    ensures { result ≡ get_or (in_items (held_of (whole words.now) i)) k 0 }
{
    lists::slot_at(words, place_of(i), INCOMING, k)
}

// s before place k, at the end where there is no place k.
pub fn insert(words: &mut [u32; RECORD], i: usize, k: usize, s: u16)
    requires { i < channels }
    ensures { whole words.new ≡ put_held (whole words.old) i (in_keep (held_of (whole words.old) i) (inserted incoming (in_items (held_of (whole words.old) i)) k s)) }
{
    lists::insert(words, place_of(i), INCOMING, k, s);
}

// Without the first k.
pub fn cut(words: &mut [u32; RECORD], i: usize, k: usize)
    requires { i < channels }
    ensures { whole words.new ≡ put_held (whole words.old) i (in_keep (held_of (whole words.old) i) (drop k (in_items (held_of (whole words.old) i)))) }
{
    lists::cut(words, place_of(i), INCOMING, k);
}

// Its cells.
pub fn cells(words: &[u32; RECORD], i: usize) -> [u32; INCOMING]
    requires { i < channels }
    ensures { map low result ≡ (held_of (whole words.now) i).slots }
{
    let mut all = [0u32; INCOMING];
    pool::copy(&mut all, 0, words, place_of(i) + 1, INCOMING);
    all
}

// Each slot that it names gets a mark.
pub fn mark(words: &[u32; RECORD], i: usize, marks: &mut [u8])
    requires { i < channels }
    ensures { marks.new ≡ marked_all marks.old (in_items (held_of (whole words.now) i)) }
{
    lists::mark(words, place_of(i), INCOMING, marks);
}
