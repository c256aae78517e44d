// The record's row of numbers, by the table of its places, in document 01's order; a slot's row and a command's, which replies tell.
#![tactic(auto)]

ghost use Rattle.std.specs.Prelude.{◌≡◌, [], ◌∷◌, take, length, IfOk, IsOk, IsFalse};
ghost use Rattle.numbers.specs.Pick.{pick};
ghost use Rattle.command.specs.Layout.{layout as widths};
ghost use Rattle.command.specs.Rows.{row_of as numbers_of};
ghost use Rattle.record.specs.Rows.{slot_row};
ghost use Rattle.places.specs.Whole.{whole, record_length};
ghost use Rattle.order.specs.Table.{row_of};
ghost use Rattle.script.specs.Line.{Grows};
ghost use Rattle.script.specs.Row.{told};

use command::fields::Command;
use command::{layout, rows};
use order::Place;
use places::RECORD;
use record::groups::Outgoing;
use script::row;
use script::row::Row;
use std::io;
use std::io::Write;

// Each number of the record that is written.
pub fn record<W: Write>(out: &mut W, row: Row, words: &[u32; RECORD]) -> io::Result<Row>
    ensures value { IfOk result (λ after. after ≡ told row (row_of (whole words.now))) }
    ensures silent { IsFalse row.is_shown → IsOk result }
    ensures front { Grows (W.contents out.old) (W.contents out.new) }
{
    let mut after = row;
    for i in 0..RECORD {
        after = number(out, after, order::place_at(words, i))?;
    }
    Ok(after)
}

fn number<W: Write>(out: &mut W, row: Row, place: Place) -> io::Result<Row>
    ensures value { IfOk result (λ after. after ≡ pick place.is_written (told row (place.number ∷ [])) row) }
    ensures silent { IsFalse row.is_shown → IsOk result }
    ensures front { Grows (W.contents out.old) (W.contents out.new) }
{
    if place.is_written {
        return row::put(out, row, place.number);
    }
    Ok(row)
}

pub fn outgoing_slot<W: Write>(out: &mut W, row: Row, s: Outgoing) -> io::Result<Row>
    ensures value { IfOk result (λ after. after ≡ told row (slot_row s)) }
    ensures silent { IsFalse row.is_shown → IsOk result }
    ensures front { Grows (W.contents out.old) (W.contents out.new) }
{
    let a = s.reliable;
    let b = s.unreliable;
    let numbers = [
        a.0 as u32,
        b.0 as u32,
        s.sent,
        s.timeout,
        s.queued,
        s.offset,
        s.length as u32,
        s.attempts as u32,
        s.packet as u32,
    ];
    let row = row::put_all(out, row, &numbers)?;
    let c = s.command;
    command(out, row, c)
}

pub fn command<W: Write>(out: &mut W, row: Row, c: Command) -> io::Result<Row>
    ensures value { IfOk result (λ after. after ≡ told row (numbers_of c)) }
    ensures silent { IsFalse row.is_shown → IsOk result }
    ensures front { Grows (W.contents out.old) (W.contents out.new) }
{
    let fields = c.fields;
    fitted(out, row, rows::kind_of(fields), rows::of(c))
}

// As many numbers as a command of this kind has.
fn fitted<W: Write>(out: &mut W, row: Row, kind: u8, numbers: [u32; 16]) -> io::Result<Row>
    ensures value { IfOk result (λ after. after ≡ told row (take (length (widths kind)) numbers)) }
    ensures silent { IsFalse row.is_shown → IsOk result }
    ensures front { Grows (W.contents out.old) (W.contents out.new) }
{
    let mut after = row;
    for (j, x) in numbers.iter().enumerate() {
        if layout::width_of(kind, j) == 0 {
            return Ok(after);
        }
        after = row::put(out, after, *x)?;
    }
    Ok(after)
}
