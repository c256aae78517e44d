// The bytes that the used incoming slots store, slot by slot: how many there are, written into a buffer, and laid back into both stores.
ghost use Rattle.std.specs.Prelude.{◌≡◌, ◌+◌, ◌≤◌, ◌<◌, length, take, drop};
ghost use Rattle.std.proofs.lemmas.List.Edits.{sets};
ghost use Rattle.record.specs.Lists.{incoming};
ghost use Rattle.record.specs.Sizes.{store_length, second_length};
ghost use Rattle.places.specs.Whole.{whole, record_length};
ghost use Rattle.order.specs.Table.{used_incoming};
ghost use Rattle.snapshot_parts.specs.Stored.{stored_length, stored_bytes, stored_total, stored_from, stores, laid_one, laid_from};
ghost use Rattle.snapshot_parts.specs.CodeStored.{used_at};

use blocks::BYTES;
use order::used;
use places::{RECORD, pools};
use pool::copy;
use record::INCOMING;
use record::fresh::NO_INCOMING;
use record::groups::Incoming;

// A cell of the store.
const CELL: usize = 4096;

// How many bytes an incoming slot has; where its length is above its limit, the limit's.
fn stored_length(slot: Incoming) -> usize
    ensures { result ≡ stored_length slot }
{
    if blocks::is_block(slot) {
        return (slot.length as usize).min(BYTES as usize);
    }
    (slot.length as usize).min(CELL)
}

// Slot s, where it is used; else an empty one, which has no bytes.
fn used_slot(words: &[u32; RECORD], s: usize) -> Incoming
    ensures { result ≡ used_at (whole words.now) s }
{
    if used::incoming(words, s) {
        return pools::incoming_at(words, s);
    }
    NO_INCOMING
}

// How many bytes all slots have.
pub fn size(words: &[u32; RECORD]) -> usize
    ensures { result ≡ stored_total (used_incoming (whole words.now)) 0 (whole words.now).incoming }
{
    let mut total: usize = 0;
    for s in 0..INCOMING {
        total = total + stored_length(used_slot(words, s));
    }
    total
}

// A slot's bytes, from a place of the buffer on: a block's of the second store, another's of its cell.
fn put_slot(slot: Incoming, s: usize, store: &[u8], second: &[u8], buffer: &mut [u8], at: usize)
    requires s_lt_incoming { (s < incoming) × (length store.now ≡ store_length) × (length second.now ≡ second_length) }
    requires slot_in_bounds { at + stored_length slot ≤ length buffer.old }
    ensures { buffer.new ≡ sets buffer.old at (stored_bytes store.now second.now s slot) }
{
    let n = stored_length(slot);
    if blocks::is_block(slot) {
        copy(buffer, at, second, 0, n);
        return;
    }
    copy(buffer, at, store, s * CELL, n);
}

// All slots' bytes, from a place of the buffer on; where they end.
pub fn put(
    words: &[u32; RECORD],
    store: &[u8],
    second: &[u8],
    buffer: &mut [u8],
    at: usize,
) -> usize
    requires store_len { (length store.now ≡ store_length) × (length second.now ≡ second_length) }
    requires words_in_bounds { at + stored_total (used_incoming (whole words.now)) 0 (whole words.now).incoming ≤ length buffer.old }
    ensures bytes { buffer.new ≡ sets buffer.old at (stored_from (used_incoming (whole words.now)) store.now second.now 0 (whole words.now).incoming) }
    ensures end { result ≡ at + stored_total (used_incoming (whole words.now)) 0 (whole words.now).incoming }
{
    let mut end = at;
    for s in 0..INCOMING {
        let slot = used_slot(words, s);
        put_slot(slot, s, store, second, buffer, end);
        end = end + stored_length(slot);
    }
    end
}

// A slot's bytes, from a place on, into its store.
fn lay_slot(slot: Incoming, s: usize, bytes: &[u8], at: usize, store: &mut [u8], second: &mut [u8])
    requires s_lt_incoming { (s < incoming) × (length store.old ≡ store_length) × (length second.old ≡ second_length) }
    requires slot_in_bounds { at + stored_length slot ≤ length bytes.now }
    ensures { stores store.new second.new ≡ laid_one s slot (take (stored_length slot) (drop at bytes.now)) (stores store.old second.old) }
{
    let n = stored_length(slot);
    if blocks::is_block(slot) {
        copy(second, 0, bytes, at, n);
        return;
    }
    copy(store, s * CELL, bytes, at, n);
}

// All slots' bytes, from a place on, into both stores.
pub fn lay(words: &[u32; RECORD], bytes: &[u8], at: usize, store: &mut [u8], second: &mut [u8])
    requires store_len { (length store.old ≡ store_length) × (length second.old ≡ second_length) }
    requires words_in_bounds { at + stored_total (used_incoming (whole words.now)) 0 (whole words.now).incoming ≤ length bytes.now }
    ensures { stores store.new second.new ≡ laid_from (used_incoming (whole words.now)) 0 (whole words.now).incoming (drop at bytes.now) (stores store.old second.old) }
{
    let mut end = at;
    for s in 0..INCOMING {
        let slot = used_slot(words, s);
        lay_slot(slot, s, bytes, end, store, second);
        end = end + stored_length(slot);
    }
}
