// Marks, one a slot of a pool: which slots the lists name, the lowest free one.
ghost use Rattle.std.specs.Prelude.{◌≡◌, min, length};
ghost use Rattle.cells.specs.Free.{is_marked, first_from, nameable};

// How many slots a number of 16 bits can name.
const NAMEABLE: usize = 65536;

// The lowest slot without a mark, of those that a number of 16 bits can name.
pub fn lowest(marks: &[u8]) -> Option<u16>
    ensures { result ≡ first_from (is_marked marks.now) (min (length marks.now) nameable) 0 }
{
    let k = marks[..marks.len().min(NAMEABLE)]
        .iter()
        .position(|m| *m != 1)?;
    Some(k as u16)
}
