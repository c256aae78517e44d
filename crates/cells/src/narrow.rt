// Runs of cells, whatever their number: what the lists of both pools are made of. A length past the cells means all of them.
ghost use Rattle.std.specs.Prelude.{◌≡◌, take};
ghost use Rattle.cells.specs.Runs.{find_from};

// The first place of s among the first n cells.
pub fn find(cells: &[u16], n: usize, s: u16) -> Option<usize>
    ensures { result ≡ find_from 0 (take n cells.now) s }
{
    cells[..n.min(cells.len())].iter().position(|c| *c == s)
}
