// Lines: decimal numbers and words with one space between, written to what takes them. A line is handed out as it ends.
ghost use Rattle.std.specs.Prelude.{◌∷◌, [], ◌++◌, ◌≤◌, ◌<◌, OnOk, OnErr, IfOk, decimal, length, take};
ghost use Rattle.std.specs.Io.KnownBytes.{Appends};
ghost use Rattle.script.specs.Line.{marked, ending, Grows};

use itoa::Buffer;
use std::io;
use std::io::{ErrorKind, Write};

// The bytes, however many at a time the writer takes; an interrupted write is tried again.
pub fn word<W: Write>(out: &mut W, s: &[u8]) -> io::Result<()>
    ensures text { OnOk result (Appends (W.contents out.old) (W.contents out.new) s.now) }
    ensures front { Grows (W.contents out.old) (W.contents out.new) }
{
    let mut at = 0;
    for _ in 0..u64::MAX {
        if at == s.len() {
            return Ok(());
        }
        at += some(out, &s[at..])?;
    }
    Err(io::Error::from(ErrorKind::Interrupted))
}

// Some of the bytes: how many; none where the write was interrupted.
fn some<W: Write>(out: &mut W, rest: &[u8]) -> io::Result<usize>
    requires { 0 < length rest.now }
    ensures few { IfOk result (λ n. n ≤ length rest.now) }
    ensures text { IfOk result (λ n. Appends (W.contents out.old) (W.contents out.new) (take n rest.now)) }
    ensures kept { OnErr result (Grows (W.contents out.old) (W.contents out.new)) }
{
    match out.write(rest) {
        Ok(0) => Err(io::Error::from(ErrorKind::WriteZero)),
        Ok(n) => Ok(n),
        Err(e) if e.kind() == ErrorKind::Interrupted => Ok(0),
        Err(e) => Err(e),
    }
}

// The op begins its line.
pub fn begin<W: Write>(out: &mut W, op: u32) -> io::Result<()>
    ensures text { OnOk result (Appends (W.contents out.old) (W.contents out.new) (decimal op)) }
    ensures front { Grows (W.contents out.old) (W.contents out.new) }
{
    let mut digits = Buffer::new();
    word(out, digits.format(op).as_bytes())
}

pub fn value<W: Write>(out: &mut W, x: u32) -> io::Result<()>
    ensures text { OnOk result (Appends (W.contents out.old) (W.contents out.new) (32 ∷ decimal x)) }
    ensures front { Grows (W.contents out.old) (W.contents out.new) }
{
    byte(out, b' ')?;
    begin(out, x)
}

pub fn pair<W: Write>(out: &mut W, x: u32, y: u32) -> io::Result<()>
    ensures { OnOk result (Appends (W.contents out.old) (W.contents out.new) (32 ∷ decimal x ++ 32 ∷ decimal y)) }
{
    value(out, x)?;
    value(out, y)
}

fn byte<W: Write>(out: &mut W, b: u8) -> io::Result<()>
    ensures text { OnOk result (Appends (W.contents out.old) (W.contents out.new) (b ∷ [])) }
    ensures front { Grows (W.contents out.old) (W.contents out.new) }
{
    word(out, &[b])
}

// A call's line has the record's hash at its end.
fn mark<W: Write>(out: &mut W, op: u32, hash: u32) -> io::Result<()>
    ensures { OnOk result (Appends (W.contents out.old) (W.contents out.new) (marked op hash)) }
{
    if !matches!(op, 1..=14 | 18) {
        return Ok(());
    }
    word(out, b" #")?;
    value(out, hash)
}

// A line ends, and is handed out.
pub fn end<W: Write>(out: &mut W, op: u32, hash: u32) -> io::Result<()>
    ensures { OnOk result (Appends (W.contents out.old) (W.contents out.new) (ending op hash)) }
{
    mark(out, op, hash)?;
    byte(out, b'\n')?;
    out.flush()
}
