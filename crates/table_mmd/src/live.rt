// What the rows of a table show beside their own state: lines and counters.
ghost use Rattle.std.specs.Prelude.{◌≡◌, slice_index_or};
ghost use Rattle.bits.specs.Bits.{bit};
ghost use Rattle.rows.specs.Slots.{empty_slot};

use bits::is_one;
use mmd::counter::Counter;
use rows::slot::{CounterSlot, slot_of};

#[derive(Clone, Copy, PartialEq, Eq, Debug)]
pub struct Live {
    pub lines: u32,
    pub slots: [CounterSlot; 16],
}

impl Live {
    pub fn is_up(&self, line: u16) -> bool
        ensures { result ≡ bit self.now.lines line }
    {
        is_one(self.lines, line)
    }

    // The counter of a number; one that is none of the table's counts nothing.
    pub fn counter(&self, number: u16) -> Counter
        ensures { result ≡ (slice_index_or self.now.slots number empty_slot).counter }
    {
        slot_of(&self.slots, number).counter
    }
}
