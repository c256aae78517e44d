// Numbers of one width as numbers of another.
ghost use Rattle.std.specs.Prelude.{◌≡◌, ◌%◌, ◌<◌};

// The low 8 bits.
pub fn low8(x: u32) -> u8
    ensures { result ≡ x % 256 }
{
    (x % 256) as u8
}

// The low 16 bits.
pub fn low16(x: u32) -> u16
    ensures { result ≡ x % 65536 }
{
    (x % 65536) as u16
}

pub fn wide8(x: u8) -> u32
    ensures is { result ≡ x }
    ensures low { x < 256 }
{
    x as u32
}

pub fn wide16(x: u16) -> u32
    ensures is { result ≡ x }
    ensures low { x < 65536 }
{
    x as u32
}
