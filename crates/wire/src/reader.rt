// The reader: a command from bytes at a place.
ghost use Rattle.std.specs.Prelude.{◌≡◌};
ghost use Rattle.wire.specs.Reading.{answer_of, read_at};
ghost use Rattle.wire.specs.Steps.{whole_kind};

use crate::{build, bytes};
use command::fields::Command;
use command::layout;

// The command that stands at a place, and the place after it.
#[derive(Clone, Copy)]
pub struct Reading {
    pub command: Command,
    pub next: usize,
}

pub fn read(s: &[u8], at: usize) -> Option<Reading>
    ensures { answer_of result ≡ read_at s.now at }
{
    let kind = whole_kind(s, at)?;
    let row = bytes::row_at(s, at, kind);
    let next = at + layout::size_of(kind);
    let command = build::build(kind, row)?;
    Some(Reading { command, next })
}

// The kind of the command that stands whole at this place.
fn whole_kind(s: &[u8], at: usize) -> Option<u8>
    ensures { result ≡ whole_kind s.now at }
{
    let kind = *s.get(at)? % 16;
    let size = layout::size_of(kind);
    if size == 0 {
        return None;
    }
    if s.len() - at < size {
        return None;
    }
    Some(kind)
}
