// The unsequenced window: which groups were delivered, as a base and the marks of a window of groups from it on.
#![tactic(auto)]

ghost use Rattle.std.specs.Prelude.{◌≡◌};
ghost use Rattle.window.specs.Window.{Judges, distant, marked, marking};

use numbers::consts::{
    PEER_FREE_UNSEQUENCED_WINDOWS, PEER_UNSEQUENCED_WINDOW_SIZE, UNSEQUENCED_WORDS,
};
use numbers::counters::Group;

// The groups of a window.
const WINDOW: u16 = PEER_UNSEQUENCED_WINDOW_SIZE as u16;

// How far past the base a group is still near.
const REACH: u32 = PEER_UNSEQUENCED_WINDOW_SIZE * PEER_FREE_UNSEQUENCED_WINDOWS;

// The groups of a word.
const BITS: u16 = 32;

#[derive(Clone, Copy)]
pub enum Verdict {
    Distant,
    Marked,
    Taken,
}

#[derive(Clone, Copy)]
pub struct Judged {
    pub base: Group,
    pub words: [u32; UNSEQUENCED_WORDS],
    pub verdict: Verdict,
}

// Whether the group is marked in the words.
#[tactic(auto, unfolding(crate::specs::Window::marked))]
fn marked(words: [u32; UNSEQUENCED_WORDS], group: Group) -> bool
    ensures { result ≡ marked words group.0 }
{
    let index = group.0 % WINDOW;
    let word = words[(index / BITS) as usize];
    numbers::bits::is_set(word, (index % BITS) as u32)
}

// An unsequenced arrival's group against the window. The move and the clearing come first, whatever becomes of the packet.
pub fn judge(base: Group, words: [u32; UNSEQUENCED_WORDS], group: Group) -> Judged
    ensures { Judges base words group result }
{
    if distant(base, group) {
        return Judged {
            base,
            words,
            verdict: Verdict::Distant,
        };
    }
    let first = group.0 - group.0 % WINDOW;
    if first != base.0 {
        let moved = Group(first);
        let cleared = [0u32; UNSEQUENCED_WORDS];
        return Judged {
            base: moved,
            words: cleared,
            verdict: Verdict::Taken,
        };
    }
    if marked(words, group) {
        return Judged {
            base,
            words,
            verdict: Verdict::Marked,
        };
    }
    Judged {
        base,
        words,
        verdict: Verdict::Taken,
    }
}

// Whether the group lies past all free windows from the base on; below the base, it counts as 65,536 more.
fn distant(base: Group, group: Group) -> bool
    ensures { result ≡ distant base.0 group.0 }
{
    let low = base.0 as u32;
    let mut high = group.0 as u32;
    if high < low {
        high = high + 65536;
    }
    low + REACH <= high
}

// The words with the group marked: done once it is stored.
#[tactic(auto, unfolding(crate::specs::Window::marking))]
pub fn marking(words: [u32; UNSEQUENCED_WORDS], group: Group) -> [u32; UNSEQUENCED_WORDS]
    ensures { result ≡ marking words group.0 }
{
    let index = group.0 % WINDOW;
    let place = (index / BITS) as usize;
    let mut marks = words;
    let word = marks[place];
    marks[place] = numbers::bits::set(word, (index % BITS) as u32);
    marks
}
