// C-12, a snapshot for the bench: the record and its stores written into a buffer, and restored from bytes.
#![tactic(auto)]

ghost use Rattle.std.specs.Prelude.{◌≡◌, ◌+◌, ◌≤◌, length, drop, replicate, IfSome};
ghost use Rattle.peer.specs.Outcome.{Came};
ghost use Rattle.peer.specs.Calls as plain;
ghost use Rattle.std.proofs.lemmas.List.Edits.{sets};
ghost use Rattle.record.specs.Sizes.{store_length, second_length};
ghost use Rattle.places.specs.Whole.{whole, record_length};
ghost use Rattle.order.specs.Table.{used_incoming};
ghost use Rattle.sevens.specs.Groups.{read};
ghost use Rattle.snapshot_parts.specs.Row.{result_of};
ghost use Rattle.snapshot_parts.specs.Stored.{stored_total};
ghost use Rattle.snapshot.specs.CodeEdition.{begun};
ghost use Rattle.snapshot.specs.Calls.{answer_of, snapshot_of, writes_snapshot, read_snapshot, state_from, restores};

use numbers::refusals::Refusal;
use peer::gate::Lent;
use peer::settings::Settings;
use places::RECORD;
use snapshot_parts::{row, stored};

// "the edition number 1"
const EDITION: u32 = 1;

// Edition, numbers, stored bytes.
fn put(words: &[u32; RECORD], store: &[u8], second: &[u8], buffer: &mut [u8])
    requires store_len { (length store.now ≡ store_length) × (length second.now ≡ second_length) }
    requires second_in_bounds { length (snapshot_of (record { peer = whole words.now; store = store.now; second = second.now })) ≤ length buffer.old }
    ensures { buffer.new ≡ sets buffer.old 0 (snapshot_of (record { peer = whole words.now; store = store.now; second = second.now })) }
{
    sevens::put(buffer, 0, EDITION);
    let end = row::put(words, buffer, 1);
    stored::put(words, store, second, buffer, end);
}

// How many bytes were written. Refused by 11, 13, 15 and 12, in this order. Record and stores stay as they are; only a snapshot that is written changes the buffer, its first bytes.
pub fn write(
    words: &[u32; RECORD],
    settings: Settings,
    edition: u32,
    store: &[u8],
    second: &[u8],
    buffer: &mut [u8],
) -> Result<usize, Refusal>
    ensures { Came answer_of (writes_snapshot settings edition (record { peer = whole words.now; store = store.now; second = second.now }) buffer.old) result buffer.new }
{
    let lent = Lent::Both {
        store: store.len(),
        second: second.len(),
    };
    gate::ask(words, settings, lent)?;
    if edition != EDITION {
        return Err(Refusal::Unreadable);
    }
    let length = 1 + row::size(words) + stored::size(words);
    if buffer.len() < length {
        return Err(Refusal::NoRoom);
    }
    put(words, store, second, buffer);
    Ok(length)
}

// Where the edition ends, if it is there.
fn begin(bytes: &[u8]) -> Option<usize>
    ensures edition { result ≡ begun (read bytes.now) }
    ensures inside { IfSome result (λ end. end ≤ length bytes.now) }
{
    let number = sevens::read(bytes, 0)?;
    if number.value != EDITION as u64 {
        return None;
    }
    Some(number.groups)
}

// The numbers of a snapshot, into zeros; where its stored bytes begin, if it can be read.
fn parse(bytes: &[u8], words: &mut [u32; RECORD]) -> Option<usize>
    requires { words.old ≡ replicate record_length 0 }
    ensures snapshot { result_of result words.new bytes.now ≡ read_snapshot bytes.now }
    ensures inside { IfSome result (λ end. end ≤ length bytes.now) }
{
    let at = begin(bytes)?;
    let end = row::read(bytes, at, words)?;
    if bytes.len() - end != stored::size(words) {
        return None;
    }
    Some(end)
}

// The record becomes the one of these numbers, and both stores hold its stored bytes and 0 elsewhere.
fn replace(
    words: &mut [u32; RECORD],
    fresh: &[u32; RECORD],
    store: &mut [u8],
    second: &mut [u8],
    bytes: &[u8],
    at: usize,
)
    requires store_len { (length store.old ≡ store_length) × (length second.old ≡ second_length) }
    requires fresh_in_bounds { at + stored_total (used_incoming (whole fresh.now)) 0 (whole fresh.now).incoming ≤ length bytes.now }
    ensures { record { peer = whole words.new; store = store.new; second = second.new } ≡ state_from fresh.now (drop at bytes.now) }
{
    pool::clear(store);
    pool::clear(second);
    stored::lay(fresh, bytes, at, store, second);
    *words = *fresh;
}

// Refused by 11, 15 and 13, in this order; needs no sound record. The numbers read stand in a record of the call's own until it is seen to be sound.
pub fn restore(
    words: &mut [u32; RECORD],
    settings: Settings,
    store: &mut [u8],
    second: &mut [u8],
    bytes: &[u8],
) -> Result<(), Refusal>
    ensures { Came plain.answer_of (restores settings bytes.now (record { peer = whole words.old; store = store.old; second = second.old })) result (record { peer = whole words.new; store = store.new; second = second.new }) }
{
    let lent = Lent::Both {
        store: store.len(),
        second: second.len(),
    };
    if !gate::is_fit(settings, lent) {
        return Err(Refusal::OutOfRange);
    }
    let mut fresh = [0u32; RECORD];
    let end = parse(bytes, &mut fresh).ok_or(Refusal::Unreadable)?;
    if !gate::sound(&fresh) {
        return Err(Refusal::Damaged);
    }
    replace(words, &fresh, store, second, bytes, end);
    Ok(())
}
