// A command's byte: its number in the low four bits, its flags above them.
ghost use Rattle.std.specs.Prelude.{◌≡◌};
ghost use Rattle.command.specs.Flags.{acknowledged};

use numbers::bits;

pub const ACKNOWLEDGE: u8 = 128;

pub const UNSEQUENCED: u8 = 64;

// The numbers of the commands that the calls name.
pub const VERIFY_CONNECT: u8 = 3;

pub const DISCONNECT: u8 = 4;

pub const PING: u8 = 5;

pub const SEND_RELIABLE: u8 = 6;

pub const SEND_UNRELIABLE: u8 = 7;

pub const SEND_FRAGMENT: u8 = 8;

pub const SEND_UNSEQUENCED: u8 = 9;

pub const SEND_UNRELIABLE_FRAGMENT: u8 = 12;

// Whether a byte asks for acknowledgement: flag 128.
pub fn is_acknowledged(byte: u8) -> bool
    ensures { result ≡ acknowledged byte }
{
    bits::is_set(byte as u32, 7)
}
