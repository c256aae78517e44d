// The unsequenced window's words, with the flags and groups beside them.
ghost use Rattle.std.specs.Prelude.{◌≡◌, length};
ghost use Rattle.record.specs.Updates.{with_window};
ghost use Rattle.peer.specs.Updates.{with_unsequenced};
ghost use Rattle.places.specs.Whole.{whole, record_length};

use crate::{RECORD, WORDS};
use numbers::consts::UNSEQUENCED_WORDS;
use numbers::counters::Group;
use numbers::widths::{low16, wide16};
use record::groups::Unsequenced;

// "The 32 words go in and come back as one array": the window's words with the flags and groups beside them.
pub fn unsequenced(words: &[u32; RECORD]) -> Unsequenced
    ensures { result ≡ (whole words.now).unsequenced }
{
    let mut window = [0u32; UNSEQUENCED_WORDS];
    pool::copy(&mut window, 0, words, WORDS, UNSEQUENCED_WORDS);
    let incoming = Group(low16(words[157]));
    let outgoing = Group(low16(words[158]));
    Unsequenced {
        flags: low16(words[155]),
        reserved: low16(words[156]),
        incoming,
        outgoing,
        words: window,
    }
}

fn put_words(words: &mut [u32; RECORD], window: [u32; UNSEQUENCED_WORDS])
    ensures { whole words.new ≡ with_unsequenced (whole words.old) (with_window (whole words.old).unsequenced (whole words.old).unsequenced.incoming window) }
{
    pool::copy(words, WORDS, &window, 0, UNSEQUENCED_WORDS);
}

pub fn put_unsequenced(words: &mut [u32; RECORD], x: Unsequenced)
    ensures { whole words.new ≡ with_unsequenced (whole words.old) x }
{
    let a = x.incoming;
    let b = x.outgoing;
    let window = x.words;
    let flags = wide16(x.flags);
    let reserved = wide16(x.reserved);
    let incoming = wide16(a.0);
    let outgoing = wide16(b.0);
    words[155] = flags;
    words[156] = reserved;
    words[157] = incoming;
    words[158] = outgoing;
    put_words(words, window);
}
