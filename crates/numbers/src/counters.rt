// The three counters of document 01. A place for one takes only its kind.
ghost use Rattle.std.specs.Prelude.{◌≡◌};
ghost use Rattle.numbers.specs.Counters.{step};

#[derive(Clone, Copy)]
pub struct Reliable(pub u16);

#[derive(Clone, Copy)]
pub struct Unreliable(pub u16);

#[derive(Clone, Copy)]
pub struct Group(pub u16);

impl Reliable {
    // The number after this one, past 65,535 to 0.
    pub fn next(self) -> Reliable
        ensures { result.0 ≡ step self.0 }
    {
        Reliable(self.0.wrapping_add(1))
    }
}

impl Unreliable {
    // The number after this one, past 65,535 to 0.
    pub fn next(self) -> Unreliable
        ensures { result.0 ≡ step self.0 }
    {
        Unreliable(self.0.wrapping_add(1))
    }
}

impl Group {
    // The group after this one, past 65,535 to 0.
    pub fn next(self) -> Group
        ensures { result.0 ≡ step self.0 }
    {
        Group(self.0.wrapping_add(1))
    }
}
