// Runs of cells of any length that the caller lends, altered there: what the lists of both pools are made of.
#![tactic(auto)]

pub mod marks;
pub mod narrow;

ghost use Rattle.std.specs.Prelude.{length, take, drop};
ghost use Rattle.cells.specs.Runs.{pushed, inserted, without, prepended, moved_to, Makes};

// s at the end. Answers the new length.
pub fn push(cells: &mut [u32], n: usize, s: u32) -> usize
    ensures { Makes cells.old (pushed (length cells.old) (take n cells.old) s) result cells.new }
{
    if n < cells.len() {
        cells[n] = s;
        return n + 1;
    }
    cells.len()
}

// s before place i, at the end where there is no place i. Answers the new length.
pub fn insert(cells: &mut [u32], n: usize, i: usize, s: u32) -> usize
    ensures { Makes cells.old (inserted (length cells.old) (take n cells.old) i s) result cells.new }
{
    if cells.len() <= n {
        return cells.len();
    }
    if n <= i {
        return push(cells, n, s);
    }
    cells.copy_within(i..n, i + 1);
    cells[i] = s;
    n + 1
}

// Without place i. Answers the new length.
pub fn remove(cells: &mut [u32], n: usize, i: usize) -> usize
    ensures { Makes cells.old (without (take n cells.old) i) result cells.new }
{
    let m = n.min(cells.len());
    if m <= i {
        return m;
    }
    cells.copy_within(i + 1..m, i);
    m - 1
}

// A run of k before all, in its order. Answers the new length.
pub fn prepend(cells: &mut [u32], n: usize, run: &[u32], k: usize) -> usize
    ensures { Makes cells.old (prepended (length cells.old) (take k run.now) (take n cells.old)) result cells.new }
{
    let m = n.min(cells.len());
    let h = k.min(run.len());
    if cells.len() - m < h {
        return m;
    }
    cells.copy_within(..m, h);
    cells[..h].copy_from_slice(&run[..h]);
    m + h
}

// The first k of a run of p at the end. Answers the new length.
pub fn append(cells: &mut [u32], n: usize, run: &[u32], p: usize, k: usize) -> usize
    ensures { Makes cells.old (moved_to (length cells.old) k (take p run.now) (take n cells.old)) result cells.new }
{
    let m = n.min(cells.len());
    let h = k.min(p.min(run.len()));
    if cells.len() - m < h {
        return m;
    }
    cells[m..m + h].copy_from_slice(&run[..h]);
    m + h
}

// Without the first k. Answers the new length.
pub fn cut(cells: &mut [u32], n: usize, k: usize) -> usize
    ensures { Makes cells.old (drop k (take n cells.old)) result cells.new }
{
    let m = n.min(cells.len());
    let h = k.min(m);
    cells.copy_within(h..m, 0);
    m - h
}
