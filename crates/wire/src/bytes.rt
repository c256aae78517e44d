// Big-endian numbers in bytes, one and a row of them.
ghost use Rattle.std.specs.Prelude.{◌≡◌, ◌+◌, ◌≤◌, ◌<◌, ◌^◌, length};
ghost use Rattle.command.specs.Layout.{layout, size_of};
ghost use Rattle.command.specs.Bytes.{number_at, put_number, row_at, put_row, pad};

use command::layout;

// The number whose bytes start at `at`, the high byte first.
fn number_at(s: &[u8], at: usize, width: usize) -> u32
    requires { (at + width ≤ length s.now) × (width ≤ 4) }
    ensures { (result ≡ number_at s.now at width) × (result < 256 ^ width) }
{
    let mut n: u32 = 0;
    for b in &s[at..at + width] {
        n = n * 256 + u32::from(*b);
    }
    n
}

// The low `width` bytes of x from `at` on, the high byte first.
fn put_number(out: &mut [u8], at: usize, width: usize, x: u32)
    requires { at + width ≤ length out.old }
    ensures { out.new ≡ put_number out.old at width x }
{
    let mut rest = x;
    for j in (0..width).rev() {
        out[at + j] = (rest % 256) as u8;
        rest /= 256;
    }
}

// The numbers of a command of this kind whose bytes start at `at`.
pub(crate) fn row_at(s: &[u8], at: usize, kind: u8) -> [u32; 16]
    requires { at + size_of kind ≤ length s.now }
    ensures { result ≡ pad 16 (row_at s.now at (layout kind)) }
{
    let mut row = [0u32; 16];
    let mut place = at;
    for (j, x) in row.iter_mut().enumerate() {
        let width = layout::width_of(kind, j);
        *x = number_at(s, place, width);
        place += width;
    }
    row
}

// The numbers of a command of this kind go to `at` and on.
pub(crate) fn put_row(out: &mut [u8], at: usize, kind: u8, row: [u32; 16])
    requires { at + size_of kind ≤ length out.old }
    ensures { out.new ≡ put_row out.old at (layout kind) row }
{
    let mut place = at;
    for (j, x) in row.iter().enumerate() {
        let width = layout::width_of(kind, j);
        put_number(out, place, width, *x);
        place += width;
    }
}
