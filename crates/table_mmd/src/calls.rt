// What each call of a table answers and changes.
ghost use Rattle.std.specs.Prelude.{◌≡◌};
ghost use Rattle.table_mmd.specs.Device.{meaning_of};
ghost use Rattle.table_mmd.specs.Kept.{keeps_of};

use crate::change::{is_self_clearing, read_all};
use crate::counters;
use crate::counters::counted;
use crate::entry::Entry;
use crate::table::TableMmd;
use crate::walk::change_all;
use bits::with_bit;
use mmd::mmd::Mmd;
use mmd::refusal::MmdRefusal;

impl Mmd for TableMmd {
    ghost meaning = { meaning_of };

    ghost keeps_invariant = { λ m. keeps_of m.laid };

    fn read(&mut self, register: u16) -> u16 {
        let word = read_all(self.entries.as_mut_slice(), register, &self.live);
        change_all(&mut self.live.slots, |slot| counters::read(slot, register));
        word
    }

    fn write(&mut self, register: u16, word: u16) {
        change_all(self.entries.as_mut_slice(), |entry: Entry| {
            entry.written(register, word)
        });
    }

    fn line(&mut self, number: u8, up: bool) {
        if number < 32 {
            self.live.lines = with_bit(self.live.lines, number, up);
            change_all(self.entries.as_mut_slice(), |entry: Entry| {
                entry.moved(number, up)
            });
        }
    }

    fn count(&mut self, counter: u8, amount: u16) -> Result<(), MmdRefusal> {
        let place = usize::from(counter);
        if place >= 16 {
            return Err(MmdRefusal::NoField);
        }
        self.live.slots[place] = counted(self.live.slots[place], amount)?;
        Ok(())
    }

    fn finish(&mut self, register: u16, bit: u8) -> Result<(), MmdRefusal> {
        if !is_self_clearing(self.entries.as_slice(), register, bit) {
            return Err(MmdRefusal::NotSelfClearing);
        }
        change_all(self.entries.as_mut_slice(), |entry: Entry| {
            entry.finished(register, bit)
        });
        Ok(())
    }

    fn reset(&mut self) {
        let live = &self.live;
        change_all(
            self.entries.as_mut_slice(),
            |entry: Entry| entry.reset(live),
        );
        change_all(&mut self.live.slots, counters::reset);
    }
}
