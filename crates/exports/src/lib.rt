// The window, the throttle and the reader for a host in Rust or C: numbers, byte slices, and the numbers of a throttle that is lent.
#![tactic(auto)]

ghost use Rattle.std.specs.Prelude.{◌≡◌, ◌∷◌, ◌+◌, ◌*◌, ◌≤◌, ◌<◌, length, replicate};
ghost use Rattle.command.specs.Bytes.{number_at, put_number, put_row, pad};
ghost use Rattle.command.specs.Rows.{kind_of, row_of};
ghost use Rattle.numbers.specs.Limits.{window_words};
ghost use Rattle.exports.specs.Buffers.{MarkCall, ReadCall, WindowCall, numbers_in, row_bytes, row_numbers, throttle_of, throttle_reply, TurnCall, window_bytes, with_numbers};
ghost use Rattle.exports.specs.CodeReplies.{turn_code, verdict_code};

use command::fields::Command;
use numbers::consts::UNSEQUENCED_WORDS;
use numbers::counters::Group;
use numbers::refusals::Refusal;
use std::array;
use throttle::{Throttle, Turn};
use window::Verdict;
use wire::reader::Reading;

// The buffers' lengths, four bytes a number: a window's words; a command's size, its kind and its row.
const WINDOW_BYTES: usize = 4 * UNSEQUENCED_WORDS;

const ROW_BYTES: usize = 72;

// What a refusal's number is shifted by above a base and a verdict.
const ABOVE: u32 = 16777216;

// The throttle: its new value, and above 32 bits how it turned.
#[unsafe(no_mangle)]
pub extern "C" fn lyn_throttle(
    value: u32,
    limit: u32,
    acceleration: u32,
    deceleration: u32,
    last: u32,
    variance: u32,
    sample: u32,
) -> u64
    ensures { result ≡ throttle_reply (throttle_of value limit acceleration deceleration last variance) sample }
{
    let throttle = Throttle {
        value,
        limit,
        acceleration,
        deceleration,
        last,
        variance,
    };
    let rolled = throttle.roll(sample);
    let next = rolled.throttle;
    let turn = rolled.turn;
    next.value as u64 + 4294967296 * turn_code(turn)
}

// The throttle, its numbers lent and altered there: how it turned.
#[unsafe(no_mangle)]
pub extern "C" fn lyn_turn(throttle: &mut Throttle, sample: u32) -> u64
    ensures { TurnCall throttle.old sample result throttle.new }
{
    let turn = throttle.turn(sample);
    turn_code(turn)
}

fn turn_code(turn: Turn) -> u64
    ensures { result ≡ turn_code turn }
{
    match turn {
        Turn::Held => 0,
        Turn::Raised => 1,
        Turn::Lowered => 2,
    }
}

// A group against the window in the buffer: the base afterwards, and above 16 bits the verdict.
#[unsafe(no_mangle)]
pub extern "C" fn lyn_window(base: u16, group: u16, words: &mut [u8]) -> u32
    ensures { WindowCall base group words.old result words.new }
{
    if words.len() != WINDOW_BYTES {
        return u32::from(Refusal::OutOfRange) * ABOVE;
    }
    let before = read_words(words);
    let judged = window::judge(Group(base), before, Group(group));
    let after = judged.words;
    write_words(words, 0, &after);
    let moved = judged.base;
    let verdict = judged.verdict;
    moved.0 as u32 + 65536 * verdict_code(verdict)
}

fn verdict_code(verdict: Verdict) -> u32
    ensures { result ≡ verdict_code verdict }
{
    match verdict {
        Verdict::Distant => 0,
        Verdict::Marked => 1,
        Verdict::Taken => 2,
    }
}

// The group marked in the window of the buffer.
#[unsafe(no_mangle)]
pub extern "C" fn lyn_mark(group: u16, words: &mut [u8]) -> u32
    ensures { MarkCall group words.old result words.new }
{
    if words.len() == WINDOW_BYTES {
        let marks = read_words(words);
        let marked = window::marking(marks, Group(group));
        write_words(words, 0, &marked);
        return 0;
    }
    u32::from(Refusal::OutOfRange)
}

// The command at a place of the bytes, as the numbers of its size, its kind and its row.
#[unsafe(no_mangle)]
pub extern "C" fn lyn_read(bytes: &[u8], place: usize, row: &mut [u8]) -> u32
    ensures { ReadCall bytes.now place row.old result row.new }
{
    if row.len() != ROW_BYTES {
        return u32::from(Refusal::OutOfRange);
    }
    let Some(found) = wire::reader::read(bytes, place) else {
        return u32::from(Refusal::BadCommand);
    };
    put_command(row, found.next - place, found.command);
    0
}

// A command's size, its kind and its row.
fn put_command(out: &mut [u8], size: usize, command: Command)
    requires { (length out.old ≡ row_bytes) × (size < 256) }
    ensures { out.new ≡ with_numbers row_numbers out.old (size ∷ kind_of command.fields ∷ pad 16 (row_of command)) }
{
    put_word(out, 0, size as u32);
    let fields = command.fields;
    put_word(out, 4, command::rows::kind_of(fields) as u32);
    let row = command::rows::of(command);
    write_words(out, 8, &row);
}

// The words of a window's buffer.
fn read_words(s: &[u8]) -> [u32; UNSEQUENCED_WORDS]
    requires { length s.now ≡ window_bytes }
    ensures { result ≡ numbers_in window_words s.now }
{
    array::from_fn(|i| word_at(s, 4 * i))
}

// The words from `at` on.
fn write_words(out: &mut [u8], at: usize, words: &[u32])
    requires { at + 4 * length words.now ≤ length out.old }
    ensures { out.new ≡ put_row out.old at (replicate (length words.now) 4) words.now }
{
    for (i, word) in words.iter().enumerate() {
        put_word(out, at + 4 * i, *word);
    }
}

// The word whose high byte stands at `at`.
fn word_at(s: &[u8], at: usize) -> u32
    requires { at + 4 ≤ length s.now }
    ensures { result ≡ number_at s.now at 4 }
{
    u32::from_be_bytes([s[at], s[at + 1], s[at + 2], s[at + 3]])
}

// The four bytes of x, the high byte first.
fn put_word(out: &mut [u8], at: usize, x: u32)
    requires { at + 4 ≤ length out.old }
    ensures { out.new ≡ put_number out.old at 4 x }
{
    out[at..at + 4].copy_from_slice(&x.to_be_bytes());
}
