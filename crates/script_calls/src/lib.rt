// Ops 1 to 14 and 18 of a script (SCRIPT.md): the call of the link that a frame asks for. The frame was seen to fit.
#![tactic(auto)]

ghost use Rattle.std.specs.Prelude.{◌≡◌};
ghost use Rattle.script_calls.specs.Asking.{arrival_of, piece_of, fragment_of, queue_of, arriving, inward, call_of};

use arrival::Arrival;
use command::fields::{Command, Fragment};
use link::calls::Call;
use link_in::calls::Call as Inward;
use link_out::calls::Call as Outward;
use numbers::counters::{Group, Reliable};
use numbers::widths::{low8, low16};
use outbox::pieces::Piece;
use script::frames::Frame;
use send_step::heads::Queue;

fn arrival_of(f: Frame, length: u32, place: u32) -> Arrival
    ensures { result ≡ arrival_of f length place }
{
    Arrival {
        byte: low8(f.numbers[0]),
        channel: low8(f.numbers[1]),
        number: Reliable(low16(f.numbers[2])),
        length,
        place,
    }
}

fn piece_of(f: Frame, command: Command) -> Piece
    ensures { result ≡ piece_of f command }
{
    Piece {
        command,
        packet: f.numbers[4] == 1,
        offset: f.numbers[5],
        length: low16(f.numbers[6]),
    }
}

fn queue_of(list: u32) -> Queue
    ensures { result ≡ queue_of list }
{
    match list {
        0 => Queue::Outgoing,
        _ => Queue::Reliable,
    }
}

// Op 18, the arrival of a fragment (C-11).
fn fragment_of(f: Frame) -> arrive_fragment::Piece
    ensures { result ≡ fragment_of f }
{
    let [
        byte,
        channel,
        number,
        start,
        length,
        count,
        piece,
        total,
        offset,
        place,
    ] = f.numbers;
    arrive_fragment::Piece {
        byte: low8(byte),
        channel: low8(channel),
        number: Reliable(low16(number)),
        start: Reliable(low16(start)),
        fragment: Fragment {
            length: low16(length),
            count,
            number: piece,
            total,
            offset,
        },
        place,
    }
}

// Ops 10, 11 and 18; another one stands for 14.
fn arriving(f: Frame) -> Call
    ensures { result ≡ arriving f }
{
    match f.op {
        10 => Call::Inward(Inward::UnsequencedArrival {
            arrival: arrival_of(f, f.numbers[4], f.numbers[5]),
            group: Group(low16(f.numbers[3])),
        }),
        11 => Call::Inward(Inward::ReliableArrival {
            arrival: arrival_of(f, f.numbers[3], f.numbers[4]),
        }),
        18 => Call::Inward(Inward::FragmentArrival {
            piece: fragment_of(f),
        }),
        _ => Call::Outward(Outward::Throttle {
            sample: f.numbers[0],
        }),
    }
}

// Ops 8 to 14 and 18; another one stands for 14.
fn second(f: Frame) -> Call
    ensures { result ≡ inward f }
{
    match f.op {
        8 => Call::Outward(Outward::Acknowledgement {
            channel: low8(f.numbers[0]),
            number: Reliable(low16(f.numbers[1])),
            sent: low16(f.numbers[2]),
            clock: f.numbers[3],
        }),
        9 => Call::Outward(Outward::TimeoutCheck {
            clock: f.numbers[0],
        }),
        12 => Call::Inward(Inward::Dispatch {
            channel: low8(f.numbers[0]),
        }),
        13 => Call::Inward(Inward::Receive),
        _ => arriving(f),
    }
}

// The command is op 6's.
pub fn call_of(f: Frame, command: Command) -> Call
    ensures { result ≡ call_of f command }
{
    match f.op {
        1 => Call::Reset,
        2 => Call::Begin {
            mtu: f.numbers[0],
            channels: f.numbers[1],
        },
        3 => Call::SetState {
            state: f.numbers[0],
        },
        4 => Call::Outward(Outward::Ping),
        5 => Call::Outward(Outward::Send {
            channel: low8(f.numbers[0]),
            length: f.numbers[1],
            flags: f.numbers[2],
        }),
        6 => Call::Outward(Outward::Setup {
            piece: piece_of(f, command),
        }),
        7 => Call::Outward(Outward::SendStep {
            queue: queue_of(f.numbers[0]),
            time: f.numbers[1],
        }),
        _ => second(f),
    }
}
