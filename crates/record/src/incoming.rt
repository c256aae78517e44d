// The lists of the incoming pool.
ghost use Rattle.std.specs.Prelude.{◌≡◌};
ghost use Rattle.cells.specs.Runs.{has, find_from};
ghost use Rattle.record.specs.Lists.{in_items};

use crate::INCOMING;
use cells::narrow;

#[derive(Clone, Copy)]
pub struct InList {
    pub len: u16,
    pub slots: [u16; INCOMING],
}

impl InList {
    // The first place of s.
    pub fn find(self, s: u16) -> Option<usize>
        ensures { result ≡ find_from 0 (in_items self) s }
    {
        let slots = self.slots;
        narrow::find(&slots, self.len as usize, s)
    }

    // Whether the list names s.
    pub fn contains(self, s: u16) -> bool
        ensures { result ≡ has (in_items self) s }
    {
        self.find(s).is_some()
    }
}
