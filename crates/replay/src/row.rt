// The record's row of numbers, in document 01's order.
use places::RECORD;
use script::row::Row;
use std::io;
use std::io::Write;

// The hash of the row, which is shown where that is asked for.
pub(crate) fn hash<W: Write>(
    out: &mut W,
    is_shown: bool,
    words: &[u32; RECORD],
) -> io::Result<u32> {
    let row = script_record::record(out, Row { hash: 0, is_shown }, words)?;
    Ok(row.hash)
}
