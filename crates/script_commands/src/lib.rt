// Commands in frames, and ops 30 and 31: a command read from bytes, and one written to them, into a line that no contract speaks of.
#![tactic(auto)]

ghost use Rattle.std.specs.Prelude.{◌≡◌, ◌∷◌, ltb};
ghost use Rattle.numbers.specs.Pick.{pick};
ghost use Rattle.numbers.specs.Answers.{done};
ghost use Rattle.command.specs.Rows.{kind_of, row_of};
ghost use Rattle.wire.specs.Built.{answer_of};
ghost use Rattle.script_commands.specs.Commands.{row_at, built_at, is_done, or_ping};

use command::fields::{Command, Fields};
use numbers::counters::Reliable;
use script::row::Row;
use script::{frames, line};
use std::io::Write;
use std::{array, io};
use wire::reader::Reading;
use wire::{build, reader, writer};

// The reply's number of a refused command.
const REFUSED: u32 = 9;

// The kinds are 1 to 12; 0 is left to the builder, which knows no such kind.
const KINDS: u32 = 12;

// The most bytes that op 31 has room for.
pub const ROOM: u32 = 64;

// A command in a frame: byte, channel, number and kind stand from place head on, the fields from 3 places behind tail on.
fn built(input: &[u8], head: u8, tail: u8) -> Option<Command>
    ensures { answer_of result ≡ built_at input.now head tail }
{
    let kind = frames::number(input, head, 3);
    if KINDS < kind {
        return None;
    }
    build::build(kind as u8, asked(input, head, tail))
}

fn asked(input: &[u8], head: u8, tail: u8) -> [u32; 16]
    ensures { result ≡ row_at input.now head tail }
{
    array::from_fn(|j| frames::number(input, from(head, tail, j), j as u8))
}

// Number j of the row is so many places behind this one.
fn from(head: u8, tail: u8, j: usize) -> u8
    ensures { result ≡ pick (ltb j 3) head tail }
{
    if j < 3 { head } else { tail }
}

pub fn is_command(input: &[u8], head: u8, tail: u8) -> bool
    ensures { result ≡ is_done (built_at input.now head tail) }
{
    built(input, head, tail).is_some()
}

// For a frame that was seen to fit; another has a ping.
pub fn command(input: &[u8], head: u8, tail: u8) -> Command
    ensures { done (kind_of result.fields ∷ row_of result) ≡ or_ping (built_at input.now head tail) }
{
    let ping = Command {
        byte: 0,
        channel: 0,
        number: Reliable(0),
        fields: Fields::Ping,
    };
    built(input, head, tail).unwrap_or(ping)
}

pub fn read<W: Write>(out: &mut W, bytes: &[u8], place: u32) -> io::Result<()> {
    match reader::read(bytes, place as usize) {
        Some(Reading { command, next }) => found(out, command, next),
        None => line::value(out, REFUSED),
    }
}

// The next place, then the command's numbers.
fn found<W: Write>(out: &mut W, c: Command, next: usize) -> io::Result<()> {
    line::pair(out, 0, (next % 65536) as u32)?;
    let row = Row {
        hash: 0,
        is_shown: true,
    };
    script_record::command(out, row, c)?;
    Ok(())
}

pub fn write<W: Write>(out: &mut W, input: &[u8], room: u32) -> io::Result<()> {
    let mut buffer = [0u8; 64];
    let n = (room % 65) as usize;
    match writer::write(&mut buffer[..n], 0, command(input, 0, 2)) {
        Some(end) => listed(out, &buffer, end),
        None => line::value(out, REFUSED),
    }
}

// Each byte written.
fn listed<W: Write>(out: &mut W, buffer: &[u8; 64], end: usize) -> io::Result<()> {
    line::value(out, 0)?;
    for byte in buffer.iter().take(end) {
        line::value(out, u32::from(*byte))?;
    }
    Ok(())
}
