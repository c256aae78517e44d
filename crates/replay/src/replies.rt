// A reply as a line: document 01's number, then the values of SCRIPT.md's table.
use acknowledge::Event;
use arrival::Arrived;
use link::calls::Reply;
use numbers::refusals::Refusal;
use receive::Received;
use record::groups::Outgoing;
use script::line;
use script::row::Row;
use std::io;
use std::io::Write;
use throttle::Turn;
use timeouts::Checked;

pub(crate) fn tell<W: Write>(out: &mut W, reply: Reply) -> io::Result<()> {
    match reply {
        Reply::Called(r) => told(out, r, called),
        Reply::Outward(r) => outward(out, r),
        Reply::Inward(r) => inward(out, r),
    }
}

fn outward<W: Write>(out: &mut W, reply: link_out::calls::Reply) -> io::Result<()> {
    match reply {
        link_out::calls::Reply::Called(r) => told(out, r, called),
        link_out::calls::Reply::Stepped(r) => told(out, r, stepped),
        link_out::calls::Reply::Acknowledged(r) => told(out, r, acknowledged),
        link_out::calls::Reply::Checked(r) => told(out, r, checked),
        link_out::calls::Reply::Throttled(r) => told(out, r, throttled),
    }
}

fn inward<W: Write>(out: &mut W, reply: link_in::calls::Reply) -> io::Result<()> {
    match reply {
        link_in::calls::Reply::Arrived(r) => told(out, r, arrived),
        link_in::calls::Reply::Called(r) => told(out, r, called),
        link_in::calls::Reply::Received(r) => told(out, r, received),
    }
}

// A refusal's number alone; what was done has its own line.
fn told<W: Write, T, F: FnOnce(&mut W, T) -> io::Result<()>>(
    out: &mut W,
    reply: Result<T, Refusal>,
    done: F,
) -> io::Result<()>
    requires { F.IsAlwaysCallable done }
{
    match reply {
        Ok(what) => done(out, what),
        Err(why) => line::value(out, u32::from(why)),
    }
}

fn called<W: Write>(out: &mut W, _done: ()) -> io::Result<()> {
    line::value(out, 0)
}

// 0 nothing to send, or 1 and the head's numbers.
fn stepped<W: Write>(out: &mut W, head: Option<Outgoing>) -> io::Result<()> {
    let Some(head) = head else {
        return line::pair(out, 0, 0);
    };
    line::pair(out, 0, 1)?;
    let row = Row {
        hash: 0,
        is_shown: true,
    };
    script_record::outgoing_slot(out, row, head)?;
    Ok(())
}

// 0 passed over, 1 done, 2 connect, 3 disconnect, 4 disconnect now.
fn acknowledged<W: Write>(out: &mut W, event: Event) -> io::Result<()> {
    let number = match event {
        Event::Passed => 0,
        Event::Done => 1,
        Event::Connect => 2,
        Event::Disconnect => 3,
        Event::DisconnectNow => 4,
    };
    line::pair(out, 0, number)
}

// 1 done, 3 disconnect.
fn checked<W: Write>(out: &mut W, checked: Checked) -> io::Result<()> {
    let number = match checked {
        Checked::Done => 1,
        Checked::Disconnect => 3,
    };
    line::pair(out, 0, number)
}

// 0 passed over, 1 stored.
fn arrived<W: Write>(out: &mut W, arrived: Arrived) -> io::Result<()> {
    let number = match arrived {
        Arrived::Passed => 0,
        Arrived::Stored => 1,
    };
    line::pair(out, 0, number)
}

// 0 nothing there, 1 a packet, 2 a block: channel, cell and length.
fn received<W: Write>(out: &mut W, received: Option<Received>) -> io::Result<()> {
    let (what, channel, cell, length) = match received {
        None => return line::pair(out, 0, 0),
        Some(
            Received::Packet {
                channel,
                cell,
                length,
            },
        ) => (1, channel, cell, length),
        Some(
            Received::Block {
                channel,
                cell,
                length,
            },
        ) => (2, channel, cell, length),
    };
    line::pair(out, 0, what)?;
    line::pair(out, u32::from(channel), u32::from(cell))?;
    line::value(out, length)
}

// 0 held, 1 raised, 2 lowered.
fn throttled<W: Write>(out: &mut W, turn: Turn) -> io::Result<()> {
    let number = match turn {
        Turn::Held => 0,
        Turn::Raised => 1,
        Turn::Lowered => 2,
    };
    line::pair(out, 0, number)
}
