// What the packed structs fix: each command's size, the width of each of its numbers, and which rows fit them.
ghost use Rattle.std.specs.Prelude.{◌≡◌, true, ◌^◌, eqb, ltb};
ghost use Rattle.numbers.specs.Pick.{both, pick};
ghost use Rattle.command.specs.Layout.{known, layout, size_of, width_of};
ghost use Rattle.command.specs.Bytes.{fits};

// COMMAND_SIZES of the source; 0 names no command.
const SIZES: [u8; 16] = [0, 8, 48, 44, 8, 4, 6, 8, 24, 8, 12, 16, 24, 0, 0, 0];

// A line a command: the widths of byte, channel and number, then of its fields; 0 past the last.
const WIDTHS: [[u8; 16]; 16] = [
    [0, 0, 0, 0, 0, 0, 0, 0, 0, 0, 0, 0, 0, 0, 0, 0],
    [1, 1, 2, 2, 2, 0, 0, 0, 0, 0, 0, 0, 0, 0, 0, 0],
    [1, 1, 2, 2, 1, 1, 4, 4, 4, 4, 4, 4, 4, 4, 4, 4],
    [1, 1, 2, 2, 1, 1, 4, 4, 4, 4, 4, 4, 4, 4, 4, 0],
    [1, 1, 2, 4, 0, 0, 0, 0, 0, 0, 0, 0, 0, 0, 0, 0],
    [1, 1, 2, 0, 0, 0, 0, 0, 0, 0, 0, 0, 0, 0, 0, 0],
    [1, 1, 2, 2, 0, 0, 0, 0, 0, 0, 0, 0, 0, 0, 0, 0],
    [1, 1, 2, 2, 2, 0, 0, 0, 0, 0, 0, 0, 0, 0, 0, 0],
    [1, 1, 2, 2, 2, 4, 4, 4, 4, 0, 0, 0, 0, 0, 0, 0],
    [1, 1, 2, 2, 2, 0, 0, 0, 0, 0, 0, 0, 0, 0, 0, 0],
    [1, 1, 2, 4, 4, 0, 0, 0, 0, 0, 0, 0, 0, 0, 0, 0],
    [1, 1, 2, 4, 4, 4, 0, 0, 0, 0, 0, 0, 0, 0, 0, 0],
    [1, 1, 2, 2, 2, 4, 4, 4, 4, 0, 0, 0, 0, 0, 0, 0],
    [0, 0, 0, 0, 0, 0, 0, 0, 0, 0, 0, 0, 0, 0, 0, 0],
    [0, 0, 0, 0, 0, 0, 0, 0, 0, 0, 0, 0, 0, 0, 0, 0],
    [0, 0, 0, 0, 0, 0, 0, 0, 0, 0, 0, 0, 0, 0, 0, 0],
];

// The bytes of a command of this number, 0 where the number names none.
pub fn size_of(kind: u8) -> usize
    ensures { result ≡ size_of kind }
{
    if 16 <= kind {
        return 0;
    }
    SIZES[kind as usize] as usize
}

// The width in bytes of the number at place j of such a command, 0 where it has none.
pub fn width_of(kind: u8, j: usize) -> usize
    ensures { result ≡ width_of kind j }
{
    if 16 <= kind {
        return 0;
    }
    if 16 <= j {
        return 0;
    }
    WIDTHS[kind as usize][j] as usize
}

// Whether the kind is known and each number fits the width at its place.
pub fn is_fit(kind: u8, row: [u32; 16]) -> bool
    ensures { result ≡ both (known kind) (fits (layout kind) row) }
{
    if size_of(kind) == 0 {
        return false;
    }
    for (j, x) in row.iter().enumerate() {
        if !is_within(*x, width_of(kind, j)) {
            return false;
        }
    }
    true
}

// Whether x fits so many bytes; no bytes are no number, and there is nothing to fit.
fn is_within(x: u32, width: usize) -> bool
    ensures { result ≡ pick (eqb width 0) true (ltb x (256 ^ width)) }
{
    match width {
        0 => true,
        1 => x < 256,
        2 => x < 65536,
        3 => x < 16777216,
        _ => true,
    }
}
