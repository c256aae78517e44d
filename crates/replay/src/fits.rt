// Whether the numbers of a frame fit what its op makes of them.
use crate::bench::{SECOND, STORE};
use crate::setters;
use places::RECORD;
use script::frames::Frame;

// Why a frame makes no call.
#[derive(Clone, Copy)]
pub(crate) enum Unfit {
    // A number does not fit its parameter's type, or a place is not there.
    Bad,
    // The op is not listed.
    Unknown,
}

impl Unfit {
    // What its line says.
    pub(crate) fn word(self) -> &'static [u8] {
        match self {
            Unfit::Bad => b" bad",
            Unfit::Unknown => b" unknown",
        }
    }
}

pub(crate) fn judge(f: Frame, input: &[u8], words: &[u32; RECORD]) -> Result<(), Unfit> {
    let [a, b, c, d, e, g, h, ..] = f.numbers;
    let is_fit = match f.op {
        0 => d < 2 && e as usize <= STORE && g as usize <= SECOND,
        1..=4 | 9 | 13..=15 | 30 | 32 => true,
        5 | 12 => a < 256,
        6 => e < 2 && h < 65536,
        7 => a < 2,
        8 => a < 256 && b < 65536 && c < 65536,
        10 => is_arrival(f) && d < 65536,
        11 => is_arrival(f),
        16 | 17 => c < 2,
        18 => is_arrival(f) && d < 65536 && e < 65536,
        20..=24 => setters::is_fit(f, input, words),
        31 => e <= script_commands::ROOM,
        _ => return Err(Unfit::Unknown),
    };
    if is_fit && is_built(f.op, input) {
        return Ok(());
    }
    Err(Unfit::Bad)
}

// A byte, a channel and a number. An unsequenced one has a group behind them; a fragment a start and a length.
fn is_arrival(f: Frame) -> bool {
    let [byte, channel, number, ..] = f.numbers;
    byte < 256 && channel < 256 && number < 65536
}

// Whether the frame's command, if its op has one, is one.
fn is_built(op: u32, input: &[u8]) -> bool {
    match op {
        6 => script_commands::is_command(input, 0, 4),
        23 => script_commands::is_command(input, 10, 11),
        31 => script_commands::is_command(input, 0, 2),
        _ => true,
    }
}
