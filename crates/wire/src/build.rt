// A command from a row of numbers: the way back.
ghost use Rattle.std.specs.Prelude.{◌≡◌, true, ◌≤◌, ◌<◌};
ghost use Rattle.command.specs.Layout.{known};
ghost use Rattle.wire.specs.Built.{answer_of, built_from};
ghost use Rattle.wire.specs.Decoded.{decoded, unnamed};
ghost use Rattle.command.specs.Shapes.{assembled, shaped, connect_from, fragment_from};

use command::fields::{Command, Connect, Fields, Fragment};
use command::layout;
use numbers::counters::{Group, Reliable, Unreliable};
use numbers::widths::{low8, low16};

// The command of this kind whose row begins so; refused where there is no such kind, or a number does not fit its place.
pub fn build(kind: u8, row: [u32; 16]) -> Option<Command>
    ensures { answer_of result ≡ built_from kind row }
{
    if !layout::is_fit(kind, row) {
        return None;
    }
    Some(assembled(kind, row))
}

// The command of this kind in a row, each number cut to its width; where there is no such kind, the fields are an empty slot's.
#[tactic(auto, unfolding(crate::specs::Decoded::decoded))]
pub fn decoded(kind: u32, row: [u32; 16]) -> Command
    ensures { result ≡ decoded kind row }
{
    if kind < 1 {
        return unnamed(row);
    }
    if 12 < kind {
        return unnamed(row);
    }
    assembled(kind as u8, row)
}

fn unnamed(row: [u32; 16]) -> Command
    ensures { result ≡ unnamed row }
{
    let byte = low8(row[0]);
    let channel = low8(row[1]);
    let number = Reliable(low16(row[2]));
    let none = Reliable(0);
    let fields = Fields::Acknowledge {
        number: none,
        time: 0,
    };
    Command {
        byte,
        channel,
        number,
        fields,
    }
}

// The command of this kind in a row, each number cut to its width.
fn assembled(kind: u8, row: [u32; 16]) -> Command
    requires { known kind ≡ true }
    ensures { result ≡ assembled kind row }
{
    let byte = low8(row[0]);
    let channel = low8(row[1]);
    let number = Reliable(low16(row[2]));
    let fields = shaped(kind, row);
    Command {
        byte,
        channel,
        number,
        fields,
    }
}

// The fields of this kind in a row, each cut to its width.
fn shaped(kind: u8, row: [u32; 16]) -> Fields
    requires { known kind ≡ true }
    ensures { result ≡ shaped kind row }
{
    if kind < 6 {
        control_of(kind, row)
    } else if kind < 10 {
        packet_of(kind, row)
    } else {
        settings_of(kind, row)
    }
}

#[tactic(auto, unfolding(command::specs::Shapes::shaped_by))]
fn control_of(kind: u8, row: [u32; 16]) -> Fields
    requires { (1 ≤ kind) × (kind < 6) }
    ensures { result ≡ shaped kind row }
{
    match kind {
        1 => {
            let number = Reliable(low16(row[3]));
            let time = low16(row[4]);
            Fields::Acknowledge { number, time }
        }
        2 => {
            let connect = connect_from(row);
            Fields::Connect {
                connect,
                data: row[15],
            }
        }
        3 => {
            let connect = connect_from(row);
            Fields::VerifyConnect { connect }
        }
        4 => Fields::Disconnect { data: row[3] },
        _ => Fields::Ping,
    }
}

#[tactic(auto, unfolding(command::specs::Shapes::shaped_by))]
fn packet_of(kind: u8, row: [u32; 16]) -> Fields
    requires { (6 ≤ kind) × (kind < 10) }
    ensures { result ≡ shaped kind row }
{
    let first = low16(row[3]);
    let second = low16(row[4]);
    match kind {
        6 => Fields::SendReliable { length: first },
        7 => {
            let number = Unreliable(first);
            Fields::SendUnreliable {
                number,
                length: second,
            }
        }
        8 => {
            let start = Reliable(first);
            let fragment = fragment_from(row);
            Fields::SendFragment { start, fragment }
        }
        _ => {
            let group = Group(first);
            Fields::SendUnsequenced {
                group,
                length: second,
            }
        }
    }
}

#[tactic(auto, unfolding(command::specs::Shapes::shaped_by))]
fn settings_of(kind: u8, row: [u32; 16]) -> Fields
    requires { (10 ≤ kind) × (kind < 13) }
    ensures { result ≡ shaped kind row }
{
    match kind {
        10 => Fields::BandwidthLimit {
            incoming: row[3],
            outgoing: row[4],
        },
        11 => Fields::ThrottleConfigure {
            interval: row[3],
            acceleration: row[4],
            deceleration: row[5],
        },
        _ => {
            let start = Unreliable(low16(row[3]));
            let fragment = fragment_from(row);
            Fields::SendUnreliableFragment { start, fragment }
        }
    }
}

#[tactic(auto, unfolding(command::specs::Shapes::connect_by))]
fn connect_from(row: [u32; 16]) -> Connect
    ensures { result ≡ connect_from row }
{
    let peer = low16(row[3]);
    let incoming_session = low8(row[4]);
    let outgoing_session = low8(row[5]);
    Connect {
        peer,
        incoming_session,
        outgoing_session,
        mtu: row[6],
        window: row[7],
        channels: row[8],
        incoming_bandwidth: row[9],
        outgoing_bandwidth: row[10],
        interval: row[11],
        acceleration: row[12],
        deceleration: row[13],
        id: row[14],
    }
}

#[tactic(auto, unfolding(command::specs::Shapes::fragment_by))]
fn fragment_from(row: [u32; 16]) -> Fragment
    ensures { result ≡ fragment_from row }
{
    let length = low16(row[4]);
    Fragment {
        length,
        count: row[5],
        number: row[6],
        total: row[7],
        offset: row[8],
    }
}
