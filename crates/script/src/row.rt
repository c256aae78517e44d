// Where a row of numbers goes: into its hash, and for op 15 into the line too, which no contract speaks of.
ghost use Rattle.std.specs.Prelude.{◌≡◌, [], ◌∷◌, take, IfOk, IsOk, IsFalse};
ghost use Rattle.script.specs.Line.{Grows};
ghost use Rattle.script.specs.Row.{mixed as mix, told};

use crate::line;
use std::io;
use std::io::Write;

#[derive(Clone, Copy)]
pub struct Row {
    pub hash: u32,
    pub is_shown: bool,
}

// The row with one number more; so are all below. What writes can fail; a row that is not shown is not written.
pub fn put<W: Write>(out: &mut W, row: Row, x: u32) -> io::Result<Row>
    ensures value { IfOk result (λ after. after ≡ told row (x ∷ [])) }
    ensures silent { IsFalse row.is_shown → IsOk result }
    ensures front { Grows (W.contents out.old) (W.contents out.new) }
{
    if row.is_shown {
        line::value(out, x)?;
    }
    Ok(Row {
        hash: mixed(row.hash, x),
        ..row
    })
}

pub fn put_all<W: Write>(out: &mut W, row: Row, numbers: &[u32]) -> io::Result<Row>
    ensures value { IfOk result (λ after. after ≡ told row numbers.now) }
    ensures silent { IsFalse row.is_shown → IsOk result }
    ensures front { Grows (W.contents out.old) (W.contents out.new) }
{
    let mut after = row;
    for x in numbers {
        after = put(out, after, *x)?;
    }
    Ok(after)
}

// The first n of them, or all.
pub fn put_slots<W: Write>(out: &mut W, row: Row, slots: &[u16], n: usize) -> io::Result<Row>
    ensures value { IfOk result (λ after. after ≡ told row (take n slots.now)) }
    ensures silent { IsFalse row.is_shown → IsOk result }
    ensures front { Grows (W.contents out.old) (W.contents out.new) }
{
    let mut after = row;
    for slot in &slots[..n.min(slots.len())] {
        after = put(out, after, u32::from(*slot))?;
    }
    Ok(after)
}

// The hash of a row with one number more.
pub fn mixed(hash: u32, x: u32) -> u32
    ensures { result ≡ mix hash x }
{
    ((u64::from(hash) * 65599 + u64::from(x)) % 4294967291) as u32
}
