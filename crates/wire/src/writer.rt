// The writer: a command into a lent buffer at a place.
ghost use Rattle.std.specs.Prelude.{◌≡◌};
ghost use Rattle.wire.specs.Writing.{Written};

use crate::bytes;
use command::fields::Command;
use command::{layout, rows};

pub fn write(out: &mut [u8], at: usize, c: Command) -> Option<usize>
    ensures { Written out.old at c result out.new }
{
    if !rows::names_fields(c) {
        return None;
    }
    let kind = c.byte % 16;
    let size = layout::size_of(kind);
    if out.len() < at {
        return None;
    }
    if out.len() - at < size {
        return None;
    }
    bytes::put_row(out, at, kind, rows::of(c));
    Some(at + size)
}
