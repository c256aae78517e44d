// The pools as numbers that the caller lends. An outgoing slot has 26: nine of its own, its command's row of 16, its fields' kind. An incoming slot has six.
#![tactic(auto)]

ghost use Rattle.std.specs.Prelude.{◌≡◌, map, ◌+◌, ◌≤◌, ◌<◌, length, drop, get_or, set, replicate};
ghost use Rattle.std.proofs.Math.Seq.{paste};
ghost use Rattle.record.specs.Lists.{outgoing};
ghost use Rattle.record.specs.Fresh.{no_outgoing, no_incoming};
ghost use Rattle.record.specs.Updates.{with_attempt};
ghost use Rattle.damage.specs.CodeOutWalks.{slot_grade};
ghost use Rattle.pool.specs.Slots.{width, pool_length, in_pool_length, flag, slot_from, slots_of, brief_of, in_width, in_slot_from, in_slots_of, words_of, kind_from, fit_of, grade_of};

use command::rows;
use numbers::counters::{Reliable, Unreliable};
use numbers::widths::{low8, low16};
use record::channels::on_channel;
use record::fresh::{NO_INCOMING, NO_OUTGOING};
use record::groups::{Incoming, Outgoing};
use record::{INCOMING, OUTGOING};

// The numbers of a slot, and of the pool.
pub const WIDTH: usize = 26;

pub const POOL: usize = 832;

// And of the incoming pool.
pub const IN_WIDTH: usize = 6;

pub const IN_POOL: usize = 72;

// So many numbers, from a place on, to another.
pub fn copy<T: Copy>(to: &mut [T], at: usize, from: &[T], place: usize, count: usize)
    requires count_in_bounds { at + count ≤ length to.old }
    requires count_in_bounds_2 { place + count ≤ length from.now }
    ensures { to.new ≡ paste to.old at (drop place from.now) count }
{
    to[at..at + count].copy_from_slice(&from[place..place + count]);
}

// All bytes to 0.
pub fn clear(bytes: &mut [u8])
    ensures { bytes.new ≡ replicate (length bytes.old) 0 }
{
    bytes.fill(0);
}

fn flag_of(b: bool) -> u32
    ensures { result ≡ flag b }
{
    u32::from(b)
}

// The slot that a slot's numbers are, each read modulo its width.
pub fn slot_from(part: [u32; WIDTH]) -> Outgoing
    ensures { result ≡ slot_from part }
{
    let mut row = [0u32; 16];
    copy(&mut row, 0, &part, 9, 16);
    let command = wire::build::decoded(part[25], row);
    Outgoing {
        reliable: Reliable(low16(part[0])),
        unreliable: Unreliable(low16(part[1])),
        sent: part[2],
        timeout: part[3],
        queued: part[4],
        offset: part[5],
        length: low16(part[6]),
        attempts: low16(part[7]),
        packet: 1 <= part[8],
        command,
    }
}

// The slot's numbers.
fn words(slot: Outgoing) -> [u32; WIDTH]
    ensures { (result ≡ words_of slot) × (slot_from result ≡ slot) }
{
    let own = [
        slot.reliable.0 as u32,
        slot.unreliable.0 as u32,
        slot.sent,
        slot.timeout,
        slot.queued,
        slot.offset,
        slot.length as u32,
        slot.attempts as u32,
        flag_of(slot.packet),
    ];
    let row = rows::of(slot.command);
    let mut part = [0; WIDTH];
    copy(&mut part, 0, &own, 0, 9);
    copy(&mut part, 9, &row, 0, 16);
    part[25] = rows::kind_of(slot.command.fields) as u32;
    part
}

fn no_brief() -> Brief
    ensures { result ≡ brief_of no_outgoing }
{
    Brief {
        reliable: Reliable(0),
        byte: 0,
        channel: 0,
        sent: 0,
        timeout: 0,
        length: 0,
        attempts: 0,
        packet: false,
    }
}

// Slot i; past the pool's end an empty one.
pub fn slot_at(pool: &[u32], i: usize) -> Outgoing
    requires { length pool.now ≡ pool_length }
    ensures { result ≡ get_or (slots_of pool.now) i no_outgoing }
{
    if OUTGOING <= i {
        return NO_OUTGOING;
    }
    let mut part = [0u32; WIDTH];
    copy(&mut part, 0, pool, i * WIDTH, WIDTH);
    slot_from(part)
}

// Slot i becomes this one; past the pool's end nothing changes.
pub fn put(pool: &mut [u32], i: usize, slot: Outgoing)
    requires { length pool.old ≡ pool_length }
    ensures { slots_of pool.new ≡ set (slots_of pool.old) i slot }
{
    if OUTGOING <= i {
        return;
    }
    let part = words(slot);
    copy(pool, i * WIDTH, &part, 0, WIDTH);
}

// What searches and walks ask of a slot, without its command's fields.
#[derive(Clone, Copy)]
pub struct Brief {
    pub reliable: Reliable,
    pub byte: u8,
    pub channel: u8,
    pub sent: u32,
    pub timeout: u32,
    pub length: u16,
    pub attempts: u16,
    pub packet: bool,
}

// A slot's numbers in brief.
fn brief_from(part: &[u32]) -> Brief
    requires { length part.now ≡ width }
    ensures { result ≡ brief_of (slot_from part.now) }
{
    Brief {
        reliable: Reliable(low16(part[0])),
        byte: low8(part[9]),
        channel: low8(part[10]),
        sent: part[2],
        timeout: part[3],
        length: low16(part[6]),
        attempts: low16(part[7]),
        packet: 1 <= part[8],
    }
}

// Slot i in brief; past the pool's end an empty one.
pub fn brief_at(pool: &[u32], i: usize) -> Brief
    requires { length pool.now ≡ pool_length }
    ensures { result ≡ brief_of (get_or (slots_of pool.now) i no_outgoing) }
{
    if OUTGOING <= i {
        return no_brief();
    }
    let at = i * WIDTH;
    let end = at + WIDTH;
    brief_from(&pool[at..end])
}

// Slot i gets this sent time, timeout and count of attempts; past the pool's end nothing changes.
pub fn put_attempt(pool: &mut [u32], i: usize, sent: u32, timeout: u32, attempts: u16)
    requires { length pool.old ≡ pool_length }
    ensures { slots_of pool.new ≡ set (slots_of pool.old) i (with_attempt (get_or (slots_of pool.old) i no_outgoing) sent timeout attempts) }
{
    if OUTGOING <= i {
        return;
    }
    let at = i * WIDTH;
    pool[at + 2] = sent;
    pool[at + 3] = timeout;
    pool[at + 7] = attempts as u32;
}

// An incoming slot's numbers, each read modulo its width.
fn in_slot_from(part: &[u32]) -> Incoming
    requires { length part.now ≡ in_width }
    ensures { result ≡ in_slot_from part.now }
{
    Incoming {
        byte: low8(part[0]),
        channel: low8(part[1]),
        number: Reliable(low16(part[2])),
        fragments: part[3],
        remaining: part[4],
        length: part[5],
    }
}

// Incoming slot i; past the pool's end an empty one.
pub fn in_slot_at(pool: &[u32], i: usize) -> Incoming
    requires { length pool.now ≡ in_pool_length }
    ensures { result ≡ get_or (in_slots_of pool.now) i no_incoming }
{
    if INCOMING <= i {
        return NO_INCOMING;
    }
    let at = i * IN_WIDTH;
    let end = at + IN_WIDTH;
    in_slot_from(&pool[at..end])
}

// Incoming slot i becomes this one; past the pool's end nothing changes.
pub fn put_in(pool: &mut [u32], i: usize, slot: Incoming)
    requires { length pool.old ≡ in_pool_length }
    ensures { in_slots_of pool.new ≡ set (in_slots_of pool.old) i slot }
{
    if INCOMING <= i {
        return;
    }
    let row = [
        slot.byte as u32,
        slot.channel as u32,
        slot.number.0 as u32,
        slot.fragments,
        slot.remaining,
        slot.length,
    ];
    copy(pool, i * IN_WIDTH, &row, 0, IN_WIDTH);
}

// The kind that a slot's fields have: an empty slot's where the number names none.
pub fn kind_from(kind: u32) -> u8
    ensures { result ≡ kind_from kind }
{
    match kind {
        1..=12 => kind as u8,
        _ => 1,
    }
}

// Whether a slot with this byte, channel and kind may stand in a list.
fn fit_of(byte: u32, channel: u32, kind: u32, count: u32) -> bool
    ensures { result ≡ fit_of byte channel kind count }
{
    byte % 256 % 16 == kind_from(kind) as u32 && on_channel(low8(channel), count)
}

// What a slot with these numbers is good for: 0 nothing, 1 a list, 2 the sent list too.
fn grade_of(byte: u32, channel: u32, kind: u32, attempts: u32, count: u32) -> u8
    ensures { result ≡ grade_of byte channel kind attempts count }
{
    if !fit_of(byte, channel, kind, count) {
        return 0;
    }
    if attempts % 65536 < 1 {
        return 1;
    }
    2
}

// What slot s is good for.
pub fn grade_at(pool: &[u32], s: usize, count: u32) -> u8
    requires pool_len { length pool.now ≡ pool_length }
    requires s_lt_outgoing { s < outgoing }
    ensures { result ≡ get_or (map (slot_grade count) (slots_of pool.now)) s 0 }
{
    let at = s * WIDTH;
    grade_of(
        pool[at + 9],
        pool[at + 10],
        pool[at + 25],
        pool[at + 7],
        count,
    )
}
