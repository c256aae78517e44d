// A command as a row of numbers: byte, channel, number, then its fields.
ghost use Rattle.std.specs.Prelude.{◌≡◌, [], ◌∷◌};
ghost use Rattle.command.specs.Bytes.{pad};
ghost use Rattle.command.specs.Rows.{kind_of, row_of, fields_row, connect_row, fragment_row, names_fields};

use crate::fields::{Command, Connect, Fields, Fragment};
use numbers::widths::{wide8, wide16};

// The number that the fields' variant has in public ENet.
pub fn kind_of(f: Fields) -> u8
    ensures { result ≡ kind_of f }
{
    match f {
        Fields::Acknowledge { number: _, time: _ } => 1,
        Fields::Connect {
            connect: _,
            data: _,
        } => 2,
        Fields::VerifyConnect { connect: _ } => 3,
        Fields::Disconnect { data: _ } => 4,
        Fields::Ping => 5,
        Fields::SendReliable { length: _ } => 6,
        Fields::SendUnreliable {
            number: _,
            length: _,
        } => 7,
        Fields::SendFragment {
            start: _,
            fragment: _,
        } => 8,
        Fields::SendUnsequenced {
            group: _,
            length: _,
        } => 9,
        Fields::BandwidthLimit {
            incoming: _,
            outgoing: _,
        } => 10,
        Fields::ThrottleConfigure {
            interval: _,
            acceleration: _,
            deceleration: _,
        } => 11,
        Fields::SendUnreliableFragment {
            start: _,
            fragment: _,
        } => 12,
    }
}

// Whether the command's byte names its fields.
pub fn names_fields(c: Command) -> bool
    ensures { result ≡ names_fields c }
{
    let f = c.fields;
    c.byte % 16 == kind_of(f)
}

// The row, with zeros at its end.
pub fn of(c: Command) -> [u32; 16]
    ensures { result ≡ pad 16 (row_of c) }
{
    let f = c.fields;
    let mut row = fields_row(f);
    let n = c.number;
    row[0] = c.byte as u32;
    row[1] = c.channel as u32;
    row[2] = n.0 as u32;
    row
}

// The fields as numbers 3 and on of a row; byte, channel and number are 0.
fn fields_row(f: Fields) -> [u32; 16]
    ensures { result ≡ pad 16 (0 ∷ 0 ∷ 0 ∷ fields_row f) }
{
    match f {
        Fields::Acknowledge { number, time } => pair_row(number.0, time),
        Fields::Connect { connect, data } => connect_row(connect, data),
        Fields::VerifyConnect { connect } => connect_row(connect, 0),
        Fields::Disconnect { data } => triple_row(data, 0, 0),
        Fields::Ping => triple_row(0, 0, 0),
        Fields::SendReliable { length } => pair_row(length, 0),
        Fields::SendUnreliable { number, length } => pair_row(number.0, length),
        Fields::SendFragment { start, fragment } => fragment_row(start.0, fragment),
        Fields::SendUnsequenced { group, length } => pair_row(group.0, length),
        Fields::BandwidthLimit { incoming, outgoing } => triple_row(incoming, outgoing, 0),
        Fields::ThrottleConfigure {
            interval,
            acceleration,
            deceleration,
        } => triple_row(interval, acceleration, deceleration),
        Fields::SendUnreliableFragment { start, fragment } => fragment_row(start.0, fragment),
    }
}

fn pair_row(a: u16, b: u16) -> [u32; 16]
    ensures { result ≡ pad 16 (0 ∷ 0 ∷ 0 ∷ a ∷ b ∷ []) }
{
    let x = wide16(a);
    let y = wide16(b);
    [0, 0, 0, x, y, 0, 0, 0, 0, 0, 0, 0, 0, 0, 0, 0]
}

fn triple_row(a: u32, b: u32, c: u32) -> [u32; 16]
    ensures { result ≡ pad 16 (0 ∷ 0 ∷ 0 ∷ a ∷ b ∷ c ∷ []) }
{
    [0, 0, 0, a, b, c, 0, 0, 0, 0, 0, 0, 0, 0, 0, 0]
}

fn connect_row(c: Connect, last: u32) -> [u32; 16]
    ensures { result ≡ pad 16 (0 ∷ 0 ∷ 0 ∷ connect_row c (last ∷ [])) }
{
    let p = wide16(c.peer);
    let i = wide8(c.incoming_session);
    let o = wide8(c.outgoing_session);
    [
        0,
        0,
        0,
        p,
        i,
        o,
        c.mtu,
        c.window,
        c.channels,
        c.incoming_bandwidth,
        c.outgoing_bandwidth,
        c.interval,
        c.acceleration,
        c.deceleration,
        c.id,
        last,
    ]
}

fn fragment_row(start: u16, g: Fragment) -> [u32; 16]
    ensures { result ≡ pad 16 (0 ∷ 0 ∷ 0 ∷ start ∷ fragment_row g) }
{
    let s = wide16(start);
    let n = wide16(g.length);
    [
        0, 0, 0, s, n, g.count, g.number, g.total, g.offset, 0, 0, 0, 0, 0, 0, 0,
    ]
}
