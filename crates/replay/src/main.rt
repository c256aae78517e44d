// The bench: reads a script of frames and writes one line for each, as SCRIPT.md says.
#![tactic(auto)]

mod bench;
mod calls;
mod fits;
mod replies;
mod row;
mod setters;
mod store;

use bench::Bench;
use script::frames::Frame;
use script::{frames, line};
use std::io;
use std::io::{Read, Write};

// An op whose line has no hash at its end.
const UNHASHED: u32 = 0;

// What a frame does, and what its line tells of it, but for the record's row.
fn done<W: Write>(out: &mut W, f: Frame, input: &[u8], bench: &mut Bench) -> io::Result<()> {
    match f.op {
        0 => bench.set(f),
        1..=14 | 18 => return calls::call(out, f, input, bench),
        16 | 17 => return store::told(out, f, bench),
        20..=24 => setters::set(f, input, &mut bench.words),
        30 => return script_commands::read(out, frames::bytes(input), f.numbers[0]),
        31 => return script_commands::write(out, input, f.numbers[4]),
        32 => return line::value(out, numbers::clock::distance(f.numbers[0], f.numbers[1])),
        _ => (),
    }
    Ok(())
}

// A frame's line. An unfit one makes no call.
fn turn<W: Write>(out: &mut W, input: &[u8], bench: &mut Bench) -> io::Result<()> {
    let f = frames::taken(input);
    line::begin(out, f.op)?;
    if let Err(why) = fits::judge(f, input, &bench.words) {
        line::word(out, why.word())?;
        return line::end(out, UNHASHED, 0);
    }
    done(out, f, input, bench)?;
    let hash = row::hash(out, f.op == 15, &bench.words)?;
    line::end(out, f.op, hash)
}

// A proved loop has to end, and nothing says that a script does: so turns are counted, up to more than any run has.
fn play<R: Read, W: Write>(
    from: &mut R,
    out: &mut W,
    input: &mut [u8],
    bench: &mut Bench,
) -> io::Result<()> {
    for _ in 0..u64::MAX {
        if !frames::is_next(from, out, input)? {
            break;
        }
        turn(out, input, bench)?;
    }
    Ok(())
}

// The input buffer has room for the largest frame, 66,559 bytes.
fn main(rt: HostRuntime) -> io::Result<()> {
    let mut from = rt.reader();
    let mut out = io::writer(&rt);
    let mut input = [0u8; 66560];
    let mut bench = Bench::new();
    play(&mut from, &mut out, &mut input, &mut bench)
}
