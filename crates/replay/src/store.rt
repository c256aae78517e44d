// Ops 16 and 17: the hash of so many bytes of a store, and they themselves, cut at its end.
use crate::bench::Bench;
use script::frames::Frame;
use script::{line, row};
use std::io;
use std::io::Write;

// The third number names the store: 0 the first, 1 the second.
pub(crate) fn told<W: Write>(out: &mut W, f: Frame, bench: &Bench) -> io::Result<()> {
    let [first, count, which, ..] = f.numbers;
    let bytes = if which == 1 {
        part(&bench.second, first, count)
    } else {
        part(&bench.store, first, count)
    };
    if f.op == 16 {
        return line::value(out, hash(bytes));
    }
    for byte in bytes {
        line::value(out, u32::from(*byte))?;
    }
    Ok(())
}

// So many bytes from one on.
fn part(store: &[u8], first: u32, count: u32) -> &[u8] {
    let start = store.len().min(first as usize);
    let end = store.len().min(start + count as usize);
    &store[start..end]
}

fn hash(bytes: &[u8]) -> u32 {
    bytes
        .iter()
        .fold(0, |hash, byte| row::mixed(hash, u32::from(*byte)))
}
