// By value: the record that the numbers mean, one call of the link on it, and the numbers of what it gives back.
#![tactic(auto)]

ghost use Rattle.std.specs.Prelude.{◌≡◌};
ghost use Rattle.places.specs.Whole.{whole};
ghost use Rattle.link.specs.Steps.{calls};
ghost use Rattle.measure.specs.Measured.{settings_of, call_of, Measured};

use measure::linking::call_of;
use measure::{SETTINGS, telling};
use places::RECORD;

#[unsafe(no_mangle)]
pub extern "C" fn measure_value(
    words: &mut [u32; RECORD],
    store: &mut [u8],
    second: &mut [u8],
    datagram: &[u8],
    kind: u32,
    a: u32,
    b: u32,
) -> u32
    ensures { Measured (calls (settings_of 1392) (call_of kind a b) datagram.now (record { peer = whole words.old; store = store.old; second = second.old })) result (record { peer = whole words.new; store = store.new; second = second.new }) }
{
    let peer = copies::meant(words);
    let call = call_of(kind, a, b);
    let linked = link::call(peer, SETTINGS, call, store, second, datagram);
    let reply = linked.reply;
    copies::writing::write(words, linked.peer);
    telling::linked(reply)
}

// The same without the call: what it is to be taken off by.
#[unsafe(no_mangle)]
pub extern "C" fn measure_copies(words: &mut [u32; RECORD])
    ensures { whole words.new ≡ whole words.old }
{
    let peer = copies::meant(words);
    copies::writing::write(words, peer);
}
