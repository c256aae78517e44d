// Frames: op, count, numbers of 4 bytes, length in 2 bytes, bytes; all big-endian. The input buffer has one at its start.
ghost use Rattle.std.specs.Prelude.{◌≡◌, ◌+◌, ◌≤◌, ◌<◌};
ghost use Rattle.script.specs.Frames.{byte_at, pair_at, number_at, numbers_from, length_place, part_of, bytes_of};

use crate::line;
use std::io::{ErrorKind, Read, Write};
use std::ops::Range;
use std::{array, io};

// The op and the first ten numbers; further ones are a command's.
#[derive(Clone, Copy)]
pub struct Frame {
    pub op: u32,
    pub numbers: [u32; 10],
}

pub fn taken(input: &[u8]) -> Frame
    ensures op_value { result.op ≡ byte_at input.now 0 }
    ensures numbers_value { result.numbers ≡ numbers_from input.now 0 10 }
{
    Frame {
        op: op(input),
        numbers: numbers(input, 0),
    }
}

fn op(input: &[u8]) -> u32
    ensures { result ≡ byte_at input.now 0 }
{
    u32::from(at(input, 0))
}

// The byte at a place; one past the end reads as 0.
fn at(input: &[u8], i: usize) -> u8
    ensures { result ≡ byte_at input.now i }
{
    input.get(i).copied().unwrap_or(0)
}

// The number in the two bytes at a place.
fn pair(input: &[u8], i: u16) -> u16
    ensures { result ≡ pair_at input.now i }
{
    let j = usize::from(i);
    u16::from_be_bytes([at(input, j), at(input, j + 1)])
}

// The number j places behind another; a missing one reads as 0.
pub fn number(input: &[u8], from: u8, j: u8) -> u32
    ensures { result ≡ number_at input.now (from + j) }
{
    let place = usize::from(from) + usize::from(j);
    if usize::from(at(input, 1)) <= place {
        return 0;
    }
    let i = 2 + 4 * place;
    u32::from_be_bytes([
        at(input, i),
        at(input, i + 1),
        at(input, i + 2),
        at(input, i + 3),
    ])
}

// So many numbers, from one on.
pub fn numbers<const N: usize>(input: &[u8], from: u8) -> [u32; N]
    requires { from + N ≤ 256 }
    ensures { result ≡ numbers_from input.now from N }
{
    array::from_fn(|j| number(input, from, j as u8))
}

// Where the length stands, behind the numbers.
fn length_place(input: &[u8]) -> u16
    ensures value { result ≡ length_place input.now }
    ensures upper_bound { result < 1023 }
{
    2 + 4 * u16::from(at(input, 1))
}

pub fn bytes(input: &[u8]) -> &[u8]
    ensures { result.now ≡ bytes_of input.now }
{
    let place = length_place(input);
    part(input, place + 2, pair(input, place))
}

fn part(input: &[u8], from: u16, n: u16) -> &[u8]
    ensures { result.now ≡ part_of input.now from n }
{
    let start = usize::from(from);
    let end = start + usize::from(n);
    input.get(start..end).unwrap_or(&[])
}

// Reads the next frame. An input that ends is the end of the run; inside a frame that has its line.
pub fn is_next<R: Read, W: Write>(from: &mut R, out: &mut W, input: &mut [u8]) -> io::Result<bool> {
    if !is_read(from, input, 0..1)? {
        return Ok(false);
    }
    if is_rest(from, input)? {
        return Ok(true);
    }
    line::word(out, b"short\n")?;
    out.flush()?;
    Ok(false)
}

fn is_rest<R: Read>(from: &mut R, input: &mut [u8]) -> io::Result<bool> {
    if !is_read(from, input, 1..2)? {
        return Ok(false);
    }
    let place = length_place(input);
    let start = usize::from(place) + 2;
    if !is_read(from, input, 2..start)? {
        return Ok(false);
    }
    let end = start + usize::from(pair(input, place));
    is_read(from, input, start..end)
}

// Whether the input had bytes for all of the part.
fn is_read<R: Read>(from: &mut R, input: &mut [u8], part: Range<usize>) -> io::Result<bool> {
    let Some(part) = input.get_mut(part) else {
        return Ok(false);
    };
    match from.read_exact(part) {
        Ok(()) => Ok(true),
        Err(e) if e.kind() == ErrorKind::UnexpectedEof => Ok(false),
        Err(e) => Err(e),
    }
}
