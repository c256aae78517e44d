// The packets that receive will hand out, oldest first.
ghost use Rattle.std.specs.Prelude.{◌≡◌, map, length};
ghost use Rattle.cells.specs.Runs.{first, moved_to};
ghost use Rattle.cells.specs.Free.{marked_all};
ghost use Rattle.record.specs.Lists.{incoming, in_items, in_keep};
ghost use Rattle.lists.specs.Rows.{low};
ghost use Rattle.record.specs.Updates.{in_longer, in_shorter};
ghost use Rattle.places.specs.Whole.{whole, record_length};
ghost use Rattle.queues.specs.Queues.{put_dispatched};

use places::{DISPATCHED, RECORD};
use record::INCOMING;

pub fn count(words: &[u32; RECORD]) -> usize
    ensures { result ≡ length (in_items (whole words.now).lists.dispatched) }
{
    lists::count(words, DISPATCHED, INCOMING)
}

// The slot at the head.
pub fn head(words: &[u32; RECORD]) -> Option<u16>
    ensures { result ≡ first (in_items (whole words.now).lists.dispatched) }
{
    lists::head(words, DISPATCHED, INCOMING)
}

// s at the end.
pub fn push(words: &mut [u32; RECORD], s: u16)
    ensures { whole words.new ≡ put_dispatched (whole words.old) (in_longer (whole words.old).lists.dispatched s) }
{
    lists::push(words, DISPATCHED, INCOMING, s);
}

// Without its head.
pub fn leave(words: &mut [u32; RECORD])
    ensures { whole words.new ≡ put_dispatched (whole words.old) (in_shorter (whole words.old).lists.dispatched) }
{
    lists::remove(words, DISPATCHED, INCOMING, 0);
}

// The first k numbers of a run at the end.
pub fn append(words: &mut [u32; RECORD], run: &[u32], k: usize)
    ensures { whole words.new ≡ put_dispatched (whole words.old) (in_keep (whole words.old).lists.dispatched (moved_to incoming k (map low run.now) (in_items (whole words.old).lists.dispatched))) }
{
    lists::append(words, DISPATCHED, INCOMING, run, k);
}

// Each slot that it names gets a mark.
pub fn mark(words: &[u32; RECORD], marks: &mut [u8])
    ensures { marks.new ≡ marked_all marks.old (in_items (whole words.now).lists.dispatched) }
{
    lists::mark(words, DISPATCHED, INCOMING, marks);
}
