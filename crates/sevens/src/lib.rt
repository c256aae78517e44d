// C-12: a number in groups of seven bits, low group first; a group below 128 is the last.
#![tactic(auto)]

ghost use Rattle.std.specs.Prelude.{◌≡◌, ◌+◌, ◌^◌, ◌≤◌, ◌<◌, length, drop, Some};
ghost use Rattle.std.proofs.lemmas.List.Edits.{sets};
ghost use Rattle.sevens.specs.Groups.{written, below, number_in, read};

// A number, and in how many groups it was read.
#[derive(Clone, Copy)]
pub struct Grouped {
    pub value: u64,
    pub groups: usize,
}

// The most groups that a number has.
const GROUPS: u32 = 5;

fn wide(x: u8) -> u64
    ensures { (result ≡ x) × (result < 256) }
{
    x as u64
}

// A group with what the rest gives; none where that is 0, for the form is over-long.
fn joined(b: u64, rest: Grouped) -> Option<Grouped>
    requires { (128 ≤ b) × (b < 256) × (rest.value < 2 ^ 28) × (rest.groups ≤ 4) }
    ensures { result ≡ below b (Some rest) }
{
    if rest.value == 0 {
        return None;
    }
    Some(Grouped {
        value: b - 128 + 128 * rest.value,
        groups: rest.groups + 1,
    })
}

// What stands at a place, in at most so many groups: the first, and what the rest gives; none where the bytes are short.
fn number(bytes: &[u8], at: usize, left: u32) -> Option<Grouped>
    requires { left ≤ 5 }
    ensures { result ≡ number_in left (drop at bytes.now) }
{
    if left == 0 {
        return None;
    }
    if bytes.len() <= at {
        return None;
    }
    let b = wide(bytes[at]);
    if b < 128 {
        return Some(Grouped {
            value: b,
            groups: 1,
        });
    }
    let rest = number(bytes, at + 1, left - 1)?;
    joined(b, rest)
}

// The number that stands at a place.
pub fn read(bytes: &[u8], at: usize) -> Option<Grouped>
    ensures { result ≡ read (drop at bytes.now) }
{
    number(bytes, at, GROUPS)
}

// How many groups a number has.
pub fn size(x: u32) -> usize
    ensures { result ≡ length (written x) }
{
    if x < 128 {
        return 1;
    }
    if x < 16384 {
        return 2;
    }
    if x < 2097152 {
        return 3;
    }
    if x < 268435456 {
        return 4;
    }
    5
}

// The groups of a number, from a place on.
pub fn put(buffer: &mut [u8], at: usize, x: u32)
    requires { at + length (written x) ≤ length buffer.old }
    ensures { buffer.new ≡ sets buffer.old at (written x) }
{
    let mut rest = x;
    let mut i = at;
    while 128 <= rest {
        buffer[i] = (rest % 128 + 128) as u8;
        rest = rest / 128;
        i = i + 1;
    }
    buffer[i] = rest as u8;
}
