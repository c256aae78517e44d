// The lists of the outgoing pool.
ghost use Rattle.std.specs.Prelude.{◌≡◌, map, ◌≤◌, length, get_or, take};
ghost use Rattle.cells.specs.Runs.{first, without, prepended};
ghost use Rattle.cells.specs.Free.{marked_all};
ghost use Rattle.record.specs.Lists.{outgoing, out_items, out_keep};
ghost use Rattle.lists.specs.Rows.{low};
ghost use Rattle.record.specs.Damage.{used_out};
ghost use Rattle.record.specs.Updates.{longer};
ghost use Rattle.places.specs.Whole.{whole, record_length};
ghost use Rattle.queues.specs.Queues.{out_of, place_of, put_out};

use crate::Out;
use places::{OUTGOING, RECORD, RELIABLE, SENT};
use record::OUTGOING as CELLS;

fn place_of(list: Out) -> usize
    ensures { result ≡ place_of list }
{
    match list {
        Out::Sent => SENT,
        Out::Reliable => RELIABLE,
        Out::Outgoing => OUTGOING,
    }
}

// How many slots it names.
pub fn count(words: &[u32; RECORD], list: Out) -> usize
    ensures { result ≡ length (out_items (out_of list (whole words.now).lists)) }
{
    lists::count(words, place_of(list), CELLS)
}

// The slot at place k; 0 where there is no such place.
pub fn slot_at(words: &[u32; RECORD], list: Out, k: usize) -> u16
    ensures { result ≡ get_or (out_items (out_of list (whole words.now).lists)) k 0 }
{
    lists::slot_at(words, place_of(list), CELLS, k)
}

// The slot at the head.
pub fn head(words: &[u32; RECORD], list: Out) -> Option<u16>
    ensures { result ≡ first (out_items (out_of list (whole words.now).lists)) }
{
    lists::head(words, place_of(list), CELLS)
}

// s at the end.
pub fn push(words: &mut [u32; RECORD], list: Out, s: u16)
    ensures { whole words.new ≡ put_out list (whole words.old) (longer (out_of list (whole words.old).lists) s) }
{
    lists::push(words, place_of(list), CELLS, s);
}

// Without place k.
pub fn remove(words: &mut [u32; RECORD], list: Out, k: usize)
    ensures { whole words.new ≡ put_out list (whole words.old) (out_keep (out_of list (whole words.old).lists) (without (out_items (out_of list (whole words.old).lists)) k)) }
{
    lists::remove(words, place_of(list), CELLS, k);
}

// The first k numbers of a run before all, in their order.
pub fn prepend(words: &mut [u32; RECORD], list: Out, run: &[u32], k: usize)
    ensures { whole words.new ≡ put_out list (whole words.old) (out_keep (out_of list (whole words.old).lists) (prepended outgoing (map low (take k run.now)) (out_items (out_of list (whole words.old).lists)))) }
{
    lists::prepend(words, place_of(list), CELLS, run, k);
}

// It names the first k numbers of a run then, and no other.
pub fn replace(words: &mut [u32; RECORD], list: Out, run: &[u32], k: usize)
    requires k_le_outgoing { k ≤ outgoing }
    requires k_in_bounds { k ≤ length run.now }
    ensures { whole words.new ≡ put_out list (whole words.old) (out_keep (out_of list (whole words.old).lists) (map low (take k run.now))) }
{
    let at = place_of(list);
    lists::cut(words, at, CELLS, CELLS);
    lists::append(words, at, CELLS, run, k);
}

// Each slot that one of the three names gets a mark.
pub fn mark(words: &[u32; RECORD], marks: &mut [u8])
    ensures { marks.new ≡ marked_all marks.old (used_out (whole words.now).lists) }
{
    lists::mark(words, SENT, CELLS, marks);
    lists::mark(words, RELIABLE, CELLS, marks);
    lists::mark(words, OUTGOING, CELLS, marks);
}
