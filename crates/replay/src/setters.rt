// Ops 20 to 24: the bench's own changes of the record, sound or not.
ghost use Rattle.std.specs.Prelude.{◌<◌, IfSome};

use places::RECORD;
use script::frames;
use script::frames::Frame;
use script_set::named;

// The numbers of a slot of each pool that a frame gives from its second number on.
const OUTGOING: usize = 9;

const INCOMING: usize = 6;

// Where ops 20 to 22 set a number; where the slot of 23 and 24 begins.
fn place_of(f: Frame) -> Option<usize>
    ensures { IfSome result (λ i. i < 1236) }
{
    let [a, b, ..] = f.numbers;
    match f.op {
        20 => named::number_place(a),
        21 => named::cell_place(a, b),
        22 => named::channel_place(a, b),
        23 => named::outgoing_place(a),
        _ => named::incoming_place(a),
    }
}

// The number that ops 20 to 22 set.
fn value(f: Frame) -> u32 {
    let [_, b, c, ..] = f.numbers;
    if f.op == 20 { b } else { c }
}

// Whether the frame's numbers fit their places, but for a command's own.
pub(crate) fn is_fit(f: Frame, input: &[u8], words: &[u32; RECORD]) -> bool {
    let Some(at) = place_of(f) else {
        return false;
    };
    match f.op {
        23 => script_set::all_fit(words, at, &frames::numbers::<OUTGOING>(input, 1)),
        24 => script_set::all_fit(words, at, &frames::numbers::<INCOMING>(input, 1)),
        _ => script_set::fits_at(words, at, value(f)),
    }
}

// The frame was seen to fit.
pub(crate) fn set(f: Frame, input: &[u8], words: &mut [u32; RECORD]) {
    match f.op {
        23 => outgoing(f, input, words),
        24 => incoming(f, input, words),
        _ => number(f, words),
    }
}

fn outgoing(f: Frame, input: &[u8], words: &mut [u32; RECORD]) {
    if let Some(at) = named::outgoing_place(f.numbers[0]) {
        script_set::put_all(words, at, &frames::numbers::<OUTGOING>(input, 1));
        script_set::put_command(
            words,
            at + OUTGOING,
            script_commands::command(input, 10, 11),
        );
    }
}

fn incoming(f: Frame, input: &[u8], words: &mut [u32; RECORD]) {
    if let Some(at) = named::incoming_place(f.numbers[0]) {
        script_set::put_all(words, at, &frames::numbers::<INCOMING>(input, 1));
    }
}

fn number(f: Frame, words: &mut [u32; RECORD]) {
    if let Some(at) = place_of(f) {
        script_set::put(words, at, value(f));
    }
}
