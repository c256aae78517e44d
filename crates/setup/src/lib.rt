// Setup (a command, whether a packet goes with it, the offset and the piece's length) and ping: each queues one command behind a gate of its own.
#![tactic(auto)]

ghost use Rattle.std.specs.Prelude.{◌≡◌};
ghost use Rattle.setup.specs.Pings.{ping_gate, pings};
ghost use Rattle.peer.specs.Outcome.{Came};
ghost use Rattle.peer.specs.Calls.{answer_of};
ghost use Rattle.places.specs.Whole.{whole};
ghost use Rattle.setup.specs.Calls.{setup_gate, sets_up};

use command::fields::{Command, Fields};
use command::{bytes, rows};
use numbers::counters::Reliable;
use numbers::refusals::Refusal;
use outbox::pieces::Piece;
use peer::Peer;
use peer::gate::Lent;
use peer::settings::Settings;
use places::{RECORD, groups};
use record::OUTGOING;
use record::channels::on_channel;
use record::groups::{ITSELF, Standing};

pub(crate) fn setup_gate(x: Piece, count: u32, free: usize) -> Result<(), Refusal>
    ensures { result ≡ setup_gate x count free }
{
    let c = x.command;
    if !on_channel(c.channel, count) {
        return Err(Refusal::InvalidChannel);
    }
    if free < 1 {
        return Err(Refusal::FailedToQueue);
    }
    if !rows::names_fields(c) {
        return Err(Refusal::BadCommand);
    }
    Ok(())
}

// Refused by 11, 13, 2, 5 and 9, in this order.
pub fn setup(words: &mut [u32; RECORD], settings: Settings, x: Piece) -> Result<(), Refusal>
    ensures { Came answer_of (sets_up settings x (whole words.old)) result (whole words.new) }
{
    gate::ask(words, settings, Lent::Nothing)?;
    let c = x.command;
    let standing = groups::standing(words);
    setup_gate(x, standing.channels, outbox::room_in(words))?;
    let mut marks = [0u8; OUTGOING];
    let o = outbox::open(words, c.channel, &mut marks);
    let after = outbox::queue(words, &mut marks, o, x);
    outbox::close(words, c.channel, after);
    Ok(())
}

// Command 5 with the acknowledge flag, channel 255, no packet.
pub(crate) const PING: Piece = Piece {
    command: Command {
        byte: bytes::PING + bytes::ACKNOWLEDGE,
        channel: ITSELF,
        number: Reliable(0),
        fields: Fields::Ping,
    },
    packet: false,
    offset: 0,
    length: 0,
};

pub(crate) fn ping_gate(standing: Standing, free: usize) -> Result<(), Refusal>
    ensures { result ≡ ping_gate standing free }
{
    if standing.state != Peer::CONNECTED {
        return Err(Refusal::NotConnected);
    }
    if free < 1 {
        return Err(Refusal::FailedToQueue);
    }
    Ok(())
}

// Refused by 11, 13, 1 and 5, in this order.
pub fn ping(words: &mut [u32; RECORD], settings: Settings) -> Result<(), Refusal>
    ensures { Came answer_of (pings settings (whole words.old)) result (whole words.new) }
{
    gate::ask(words, settings, Lent::Nothing)?;
    ping_gate(groups::standing(words), outbox::room_in(words))?;
    let mut marks = [0u8; OUTGOING];
    let o = outbox::open(words, ITSELF, &mut marks);
    let after = outbox::queue(words, &mut marks, o, PING);
    outbox::close(words, ITSELF, after);
    Ok(())
}
