// Which command a packet goes out as, by the source's tests, and how a long one is cut.
#![tactic(auto)]

pub mod plans;

ghost use Rattle.std.specs.Prelude.{◌≡◌, not, ◌-◌};
ghost use Rattle.numbers.specs.Pick.{both};
ghost use Rattle.packets.specs.Packets.{fragment_length, is_reliable, is_unsequenced, start_of, blank, whole_command, whole, cut_command, length_at, cut_piece};

use command::bytes;
use command::fields::{Command, Fields, Fragment};
use numbers::bits;
use numbers::counters::{Group, Reliable, Unreliable};
use outbox::pieces::Piece;

// Command bytes: a number of public ENet and its flag.
const SEND_RELIABLE: u8 = bytes::SEND_RELIABLE + bytes::ACKNOWLEDGE;

const SEND_UNRELIABLE: u8 = bytes::SEND_UNRELIABLE;

const SEND_FRAGMENT: u8 = bytes::SEND_FRAGMENT + bytes::ACKNOWLEDGE;

const SEND_UNSEQUENCED: u8 = bytes::SEND_UNSEQUENCED + bytes::UNSEQUENCED;

const SEND_UNRELIABLE_FRAGMENT: u8 = bytes::SEND_UNRELIABLE_FRAGMENT;

// The last number before a counter turns over.
const LAST: u16 = 65535;

// The datagram's header, 4 bytes, and a fragment command's 24.
const OVERHEAD: u32 = 28;

const CHECKSUM: u32 = 4;

// The number that a cut packet begins with, of the kind that its pieces count by.
#[derive(Clone, Copy)]
pub enum Start {
    Reliable(Reliable),
    Unreliable(Unreliable),
}

// A packet that is cut: its channel, its length, the fragment length, how many pieces, the start number.
#[derive(Clone, Copy)]
pub struct Cut {
    pub channel: u8,
    pub length: u32,
    pub fragment: u16,
    pub count: u32,
    pub start: Start,
}

// MTU - 28, less 4 with a checksum.
pub fn fragment_length(mtu: u32, checksum: bool) -> u32
    ensures { result ≡ fragment_length mtu checksum }
{
    if checksum {
        return minus(minus(mtu, OVERHEAD), CHECKSUM);
    }
    minus(mtu, OVERHEAD)
}

fn minus(a: u32, b: u32) -> u32
    ensures { result ≡ a - b }
{
    if a < b {
        return 0;
    }
    a - b
}

// A cut packet: flag 8 without flag 1 goes unreliable while that number is below 65,535. Flag 2 is not asked.
pub fn start_of(flags: u32, reliable: Reliable, unreliable: Unreliable) -> Start
    ensures { result ≡ start_of flags reliable unreliable }
{
    if bits::is_set(flags, 3) {
        if !bits::is_set(flags, 0) {
            if unreliable.0 < LAST {
                return Start::Unreliable(unreliable.next());
            }
        }
    }
    Start::Reliable(reliable.next())
}

// Flag 2 without flag 1.
fn unsequenced(flags: u32) -> bool
    ensures { result ≡ both (is_unsequenced flags) (not (is_reliable flags)) }
{
    if bits::is_set(flags, 1) {
        return !bits::is_set(flags, 0);
    }
    false
}

// A packet that is not cut: flag 2 without flag 1, then flag 1 or a spent unreliable number, then the rest.
fn whole_command(flags: u32, unreliable: Unreliable, channel: u8, length: u16) -> Command
    ensures { result ≡ whole_command flags unreliable channel length }
{
    if unsequenced(flags) {
        return blank(
            SEND_UNSEQUENCED,
            channel,
            Fields::SendUnsequenced {
                group: Group(0),
                length,
            },
        );
    }
    if bits::is_set(flags, 0) {
        return blank(SEND_RELIABLE, channel, Fields::SendReliable { length });
    }
    if LAST <= unreliable.0 {
        return blank(SEND_RELIABLE, channel, Fields::SendReliable { length });
    }
    blank(
        SEND_UNRELIABLE,
        channel,
        Fields::SendUnreliable {
            number: Unreliable(0),
            length,
        },
    )
}

// A command before it is set up.
fn blank(byte: u8, channel: u8, fields: Fields) -> Command
    ensures { result ≡ blank byte channel fields }
{
    Command {
        byte,
        channel,
        number: Reliable(0),
        fields,
    }
}

// The one piece of a packet that is not cut.
pub fn whole(flags: u32, unreliable: Unreliable, channel: u8, length: u16) -> Piece
    ensures { result ≡ whole flags unreliable channel length }
{
    let command = whole_command(flags, unreliable, channel, length);
    Piece {
        command,
        packet: true,
        offset: 0,
        length,
    }
}

// The command of a piece.
fn cut_command(start: Start, channel: u8, fragment: Fragment) -> Command
    ensures { result ≡ cut_command start channel fragment }
{
    match start {
        Start::Reliable(start) => blank(
            SEND_FRAGMENT,
            channel,
            Fields::SendFragment { start, fragment },
        ),
        Start::Unreliable(start) => blank(
            SEND_UNRELIABLE_FRAGMENT,
            channel,
            Fields::SendUnreliableFragment { start, fragment },
        ),
    }
}

// A fragment length, or what is left.
pub fn length_at(x: Cut, offset: u32) -> u16
    ensures { result ≡ length_at x offset }
{
    if x.length <= offset {
        return 0;
    }
    let left = x.length - offset;
    if left < x.fragment as u32 {
        return left as u16;
    }
    x.fragment
}

// Piece j, at its offset.
pub fn cut_piece(x: Cut, j: u32, offset: u32) -> Piece
    ensures { result ≡ cut_piece x j offset }
{
    let length = length_at(x, offset);
    let fragment = Fragment {
        length,
        count: x.count,
        number: j,
        total: x.length,
        offset,
    };
    let start = x.start;
    let command = cut_command(start, x.channel, fragment);
    Piece {
        command,
        packet: true,
        offset,
        length,
    }
}
