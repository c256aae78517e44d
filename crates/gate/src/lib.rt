// The gate of every call on the lent record: settings and store (11), then the record (13). Nothing is copied: a slot is asked where a list names it.
#![tactic(auto)]

mod incoming;
mod outgoing;

ghost use Rattle.std.specs.Prelude.{◌≡◌, length};
ghost use Rattle.lists.specs.Rows.{low};
ghost use Rattle.record.specs.Damage.{ranged};
ghost use Rattle.peer.specs.Damage.{sound};
ghost use Rattle.peer.specs.Gate.{fits, gate_of};
ghost use Rattle.places.specs.Whole.{whole, record_length};

use numbers::limits;
use numbers::refusals::Refusal;
use numbers::widths::low16;
use peer::gate::Lent;
use peer::settings::Settings;
use places::RECORD;
use record::groups::{CHANNELS, SECOND, STORE};

// Where the record has its channel count and its MTU.
const COUNT: usize = 6;

const MTU: usize = 39;

// A length or a cell of a list as it is read.
fn narrow(x: u32) -> usize
    ensures { result ≡ low x }
{
    low16(x) as usize
}

pub fn is_fit(settings: Settings, lent: Lent) -> bool
    ensures { result ≡ fits settings lent }
{
    let fit = settings.is_fit();
    match lent {
        Lent::Nothing => fit,
        Lent::Store(length) => {
            if !fit {
                return false;
            }
            length == STORE
        }
        Lent::Both { store, second } => {
            if !fit {
                return false;
            }
            if store != STORE {
                return false;
            }
            second == SECOND
        }
    }
}

pub fn ask(words: &[u32; RECORD], settings: Settings, lent: Lent) -> Result<(), Refusal>
    ensures { result ≡ gate_of (fits settings lent) (sound (whole words.now)) }
{
    if !is_fit(settings, lent) {
        return Err(Refusal::OutOfRange);
    }
    if !sound(words) {
        return Err(Refusal::Damaged);
    }
    Ok(())
}

// "MTU or channel count (0 to 8) out of range"
fn ranged(mtu: u32, count: u32) -> bool
    ensures { result ≡ ranged mtu count }
{
    if !limits::mtu_fits(mtu) {
        return false;
    }
    count as usize <= CHANNELS
}

// Document 01's "damaged", turned round.
pub fn sound(words: &[u32; RECORD]) -> bool
    ensures { result ≡ sound (whole words.now) }
{
    let count = words[COUNT];
    if !ranged(words[MTU], count) {
        return false;
    }
    if !crate::outgoing::out_side(words, count) {
        return false;
    }
    crate::incoming::in_side(words, count)
}
