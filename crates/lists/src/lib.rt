// Lists in the numbers that the caller lends: from a place on a length and `size` cells, altered there. The lists of both pools are such lists.
#![tactic(auto)]

ghost use Rattle.std.specs.Prelude.{◌≡◌, ◌+◌, ◌≤◌, ◌<◌, map, length, get_or, take, drop};
ghost use Rattle.cells.specs.Runs.{pushed, inserted, without, prepended, moved_to, first};
ghost use Rattle.cells.specs.Free.{marked_all};
ghost use Rattle.lists.specs.Rows.{low, row_at, items_of, Keeps};

use numbers::widths::low16;

// How many slots the list names: never more than its cells.
pub fn count(words: &[u32], at: usize, size: usize) -> usize
    requires { at + size + 1 ≤ length words.now }
    ensures { result ≡ length (items_of (row_at at size words.now)) }
{
    (low16(words[at]) as usize).min(size)
}

// The slot at place k; 0 where the list has no such place.
pub fn slot_at(words: &[u32], at: usize, size: usize, k: usize) -> u16
    requires { at + size + 1 ≤ length words.now }
    ensures { result ≡ get_or (items_of (row_at at size words.now)) k 0 }
{
    if count(words, at, size) <= k {
        return 0;
    }
    low16(words[at + 1 + k])
}

// The slot at the head.
pub fn head(words: &[u32], at: usize, size: usize) -> Option<u16>
    requires { at + size + 1 ≤ length words.now }
    ensures { result ≡ first (items_of (row_at at size words.now)) }
{
    if count(words, at, size) == 0 {
        return None;
    }
    Some(slot_at(words, at, size, 0))
}

// Each slot that the list names and that exists gets a mark.
pub fn mark(words: &[u32], at: usize, size: usize, marks: &mut [u8])
    requires { at + size + 1 ≤ length words.now }
    ensures { marks.new ≡ marked_all marks.old (items_of (row_at at size words.now)) }
{
    let n = count(words, at, size);
    for k in 0..n {
        let s = slot_at(words, at, size, k) as usize;
        if s < marks.len() {
            marks[s] = 1;
        }
    }
}

// s at the end.
pub fn push(words: &mut [u32], at: usize, size: usize, s: u16)
    requires size_in_bounds { at + size + 1 ≤ length words.old }
    requires size_bound { size < 65536 }
    ensures { Keeps at size words.old (pushed size (items_of (row_at at size words.old)) s) words.new }
{
    let n = low16(words[at]) as usize;
    let m = cells::push(&mut words[at + 1..at + 1 + size], n, s as u32);
    words[at] = m as u32;
}

// s before place i, at the end where there is no place i.
pub fn insert(words: &mut [u32], at: usize, size: usize, i: usize, s: u16)
    requires size_in_bounds { at + size + 1 ≤ length words.old }
    requires size_bound { size < 65536 }
    ensures { Keeps at size words.old (inserted size (items_of (row_at at size words.old)) i s) words.new }
{
    let n = low16(words[at]) as usize;
    let m = cells::insert(&mut words[at + 1..at + 1 + size], n, i, s as u32);
    words[at] = m as u32;
}

// Without place i.
pub fn remove(words: &mut [u32], at: usize, size: usize, i: usize)
    requires size_in_bounds { at + size + 1 ≤ length words.old }
    requires size_bound { size < 65536 }
    ensures { Keeps at size words.old (without (items_of (row_at at size words.old)) i) words.new }
{
    let n = low16(words[at]) as usize;
    let m = cells::remove(&mut words[at + 1..at + 1 + size], n, i);
    words[at] = m as u32;
}

// Without the first k.
pub fn cut(words: &mut [u32], at: usize, size: usize, k: usize)
    requires size_in_bounds { at + size + 1 ≤ length words.old }
    requires size_bound { size < 65536 }
    ensures { Keeps at size words.old (drop k (items_of (row_at at size words.old))) words.new }
{
    let n = low16(words[at]) as usize;
    let m = cells::cut(&mut words[at + 1..at + 1 + size], n, k);
    words[at] = m as u32;
}

// The first k numbers of a run before all, in their order, each read modulo 65,536.
pub fn prepend(words: &mut [u32], at: usize, size: usize, run: &[u32], k: usize)
    requires size_in_bounds { at + size + 1 ≤ length words.old }
    requires size_bound { size < 65536 }
    ensures { Keeps at size words.old (prepended size (map low (take k run.now)) (items_of (row_at at size words.old))) words.new }
{
    let n = low16(words[at]) as usize;
    let m = cells::prepend(&mut words[at + 1..at + 1 + size], n, run, k);
    words[at] = m as u32;
}

// The first k numbers of a run at the end, each read modulo 65,536.
pub fn append(words: &mut [u32], at: usize, size: usize, run: &[u32], k: usize)
    requires size_in_bounds { at + size + 1 ≤ length words.old }
    requires size_bound { size < 65536 }
    ensures { Keeps at size words.old (moved_to size k (map low run.now) (items_of (row_at at size words.old))) words.new }
{
    let n = low16(words[at]) as usize;
    let m = cells::append(&mut words[at + 1..at + 1 + size], n, run, run.len(), k);
    words[at] = m as u32;
}
