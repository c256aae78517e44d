// Ops 1 to 14 and 18: a frame becomes a call, the link makes it on the lent record, and its reply becomes a line.
use crate::bench::{Bench, SECOND, STORE};
use crate::replies;
use script::frames;
use script::frames::Frame;
use std::io;
use std::io::Write;

// Op 0 lets no length above a store's pass.
pub(crate) fn call<W: Write>(
    out: &mut W,
    f: Frame,
    input: &[u8],
    bench: &mut Bench,
) -> io::Result<()> {
    let n = bench.store_lent.min(STORE);
    let m = bench.second_lent.min(SECOND);
    let settings = bench.settings;
    let command = script_commands::command(input, 0, 4);
    let asked = script_calls::call_of(f, command);
    let store = &mut bench.store[..];
    let second = &mut bench.second[..];
    let reply = link::lent::call(
        &mut bench.words,
        settings,
        asked,
        &mut store[..n],
        &mut second[..m],
        frames::bytes(input),
    );
    replies::tell(out, reply)
}
