// What a stored piece changes: the record, and the second store.
ghost use Rattle.std.specs.Prelude.{◌≡◌, ◌<◌, length};
ghost use Rattle.record.specs.Lists.{incoming};
ghost use Rattle.record.specs.Sizes.{channels};
ghost use Rattle.places.specs.Whole.{whole, record_length};
ghost use Rattle.arrive_fragment.specs.Calls.{opened_on, pieced_on, finished_on, piece_on, with_bytes, cleared};

use crate::Piece;
use places::{RECORD, groups, pools};

// The block's slot s, in the channel's list by its start, its total awaited.
fn open(words: &mut [u32; RECORD], a: Piece, s: u16)
    requires { a.channel < channels }
    ensures { whole words.new ≡ opened_on s a (whole words.old) }
{
    let f = a.fragment;
    arrive_reliable::holding::hold(words, a.channel as usize, a.start, s);
    let block = blocks::block_of(a.byte, a.channel, a.start, f);
    pools::put_incoming(words, s as usize, block);
    let waiting = arrival::storing::awaiting(groups::waiting(words), f.total);
    groups::put_waiting(words, waiting);
}

// The piece's mark, and one less remains in slot s.
fn mark(words: &mut [u32; RECORD], a: Piece, s: u16)
    ensures { whole words.new ≡ pieced_on s a (whole words.old) }
{
    let f = a.fragment;
    let slot = pools::incoming_at(words, s as usize);
    pools::put_incoming(words, s as usize, blocks::one_less(slot));
    let marks = blocks::with_piece(groups::marks(words), f.number);
    groups::put_marks(words, marks);
}

// Where none remains in slot s, the channel is dispatched.
fn finish(words: &mut [u32; RECORD], a: Piece, s: u16)
    requires { a.channel < channels }
    ensures { whole words.new ≡ finished_on s a (whole words.old) }
{
    let slot = pools::incoming_at(words, s as usize);
    if slot.remaining == 0 {
        dispatch::dispatching::dispatch(words, a.channel as usize);
    }
}

// A piece of the block in slot s.
pub fn add(words: &mut [u32; RECORD], second: &mut [u8], datagram: &[u8], a: Piece, s: u16)
    requires { a.channel < channels }
    ensures words_after { whole words.new ≡ piece_on s a (whole words.old) }
    ensures second_after { second.new ≡ with_bytes a datagram.now second.old }
{
    let f = a.fragment;
    arrival::storing::lay(second, f.offset, datagram, a.place, f.length as u32);
    mark(words, a, s);
    finish(words, a, s);
}

// The first piece of a block, which begins in slot s.
pub fn begin(words: &mut [u32; RECORD], second: &mut [u8], datagram: &[u8], a: Piece, s: u16)
    requires { a.channel < channels }
    ensures words_after { whole words.new ≡ piece_on s a (opened_on s a (whole words.old)) }
    ensures second_after { second.new ≡ with_bytes a datagram.now (cleared second.old) }
{
    pool::clear(second);
    open(words, a, s);
    add(words, second, datagram, a, s);
}
