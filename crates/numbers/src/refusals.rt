// Document 01's table of what a call refuses, a case for each of its numbers; 14 is C-11's, 12 and 15 are C-12's.
ghost use Rattle.std.specs.Prelude.{◌≡◌};
ghost use Rattle.numbers.specs.Answers.{number_of};

#[derive(Clone, Copy)]
pub enum Refusal {
    NotConnected,
    InvalidChannel,
    PacketTooLarge,
    FragmentsExceeded,
    FailedToQueue,
    NotReceiving,
    LengthTooLarge,
    NotStored,
    BadCommand,
    NotRemoved,
    OutOfRange,
    NoRoom,
    Damaged,
    BadFragment,
    Unreadable,
}

impl From<Refusal> for u32 {
    ghost from_gives = { λ why n. n ≡ number_of why };

    fn from(why: Refusal) -> u32 {
        match why {
            Refusal::NotConnected => 1,
            Refusal::InvalidChannel => 2,
            Refusal::PacketTooLarge => 3,
            Refusal::FragmentsExceeded => 4,
            Refusal::FailedToQueue => 5,
            Refusal::NotReceiving => 6,
            Refusal::LengthTooLarge => 7,
            Refusal::NotStored => 8,
            Refusal::BadCommand => 9,
            Refusal::NotRemoved => 10,
            Refusal::OutOfRange => 11,
            Refusal::NoRoom => 12,
            Refusal::Damaged => 13,
            Refusal::BadFragment => 14,
            Refusal::Unreadable => 15,
        }
    }
}
