// What a script's frames work on: the record, the two stores, and op 0's settings for the calls that follow.
use numbers::consts;
use peer::settings::Settings;
use places::RECORD;
use script::frames::Frame;

// The store's length, and the second store's; a larger one does not fit.
pub(crate) const STORE: usize = 49152;

pub(crate) const SECOND: usize = 32768;

#[derive(Drop)]
pub(crate) struct Bench {
    pub settings: Settings,
    // How much of the store ops 10, 11 and 18 are lent.
    pub store_lent: usize,
    // How much of the second store op 18 is lent.
    pub second_lent: usize,
    pub words: [u32; RECORD],
    pub store: [u8; STORE],
    pub second: [u8; SECOND],
}

impl Bench {
    // A reset of zeros keeps none but zeros.
    pub(crate) fn new() -> Bench {
        let settings = Settings {
            mtu: consts::HOST_DEFAULT_MTU,
            packet: consts::HOST_DEFAULT_MAXIMUM_PACKET_SIZE,
            waiting: consts::HOST_DEFAULT_MAXIMUM_WAITING_DATA,
            checksum: false,
        };
        let mut words = [0; RECORD];
        // Nothing refuses it: the first settings are in their ranges.
        let _ = lifecycle::reset(&mut words, settings);
        Bench {
            settings,
            store_lent: STORE,
            second_lent: SECOND,
            words,
            store: [0; STORE],
            second: [0; SECOND],
        }
    }

    // Op 0.
    pub(crate) fn set(&mut self, f: Frame) {
        let [mtu, packet, waiting, checksum, store, second, ..] = f.numbers;
        self.settings = Settings {
            mtu,
            packet,
            waiting,
            checksum: checksum == 1,
        };
        self.store_lent = store as usize;
        self.second_lent = second as usize;
    }
}
