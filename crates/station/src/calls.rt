// The seven calls of a station. Each is refused by 5, then 3, 4, then 6 or 7, and a refused one leaves all as it was.
ghost use Rattle.std.specs.Prelude.{◌≡◌};
ghost use Rattle.call.specs.declared.call.Call.TheVariants.{At, WatchRead};
ghost use Rattle.call.specs.declared.call.Request.TheVariants.{Count, Finish, Line, Read, Reset, Write};
ghost use Rattle.promise.specs.Rules.{after_call, answer_of};
ghost use Rattle.station.specs.Outcomes.{data_as, done_as, told_as};
ghost use Rattle.station.specs.Stations.{state_of};

use crate::hearing::hearing;
use crate::station::Station;
use crate::take::{read_register, take};
use bank::bank::Bank;
use call::answer::CallRefusal;
use frame::address::MmdAddress;
use mmd::event::Event;

const LAST_WATCHER: u8 = 7;

impl<B: Bank> Station<B> {
    // Reads an entry, and tells the watcher what it is owed of it, which is then nothing.
    pub fn watch_read(&mut self, watcher: u8, entry: u8) -> Result<u32, CallRefusal>
        ensures answer { told_as result ≡ answer_of (WatchRead watcher entry) (state_of B.Bank.slots self.old) }
        ensures after { state_of B.Bank.slots self.new ≡ after_call (WatchRead watcher entry) (state_of B.Bank.slots self.old) }
    {
        if watcher > LAST_WATCHER {
            return Err(CallRefusal::OutOfRange);
        }
        let Some(watched) = self.watched.get_mut(usize::from(entry)) else {
            return Err(CallRefusal::OutOfRange);
        };
        take(&mut self.bus, watched)?;
        Ok(watched.look(watcher))
    }

    // Reads a register; the entry that it feeds takes the reading in.
    pub fn plain_read(&mut self, address: MmdAddress, register: u16) -> Result<u16, CallRefusal>
        ensures answer { data_as result ≡ answer_of (At address (Read register)) (state_of B.Bank.slots self.old) }
        ensures after { state_of B.Bank.slots self.new ≡ after_call (At address (Read register)) (state_of B.Bank.slots self.old) }
    {
        // by its place: tried `find` over `iter_mut`, and once that borrow is over a proof knows nothing of the list
        match hearing(self.watched.as_slice(), address, register) {
            Some(index) => take(&mut self.bus, &mut self.watched[index]),
            None => read_register(&mut self.bus, address, register),
        }
    }

    // Writes a register, by an address and a write frame.
    pub fn write(
        &mut self,
        address: MmdAddress,
        register: u16,
        word: u16,
    ) -> Result<(), CallRefusal>
        ensures answer { done_as result ≡ answer_of (At address (Write register word)) (state_of B.Bank.slots self.old) }
        ensures after { state_of B.Bank.slots self.new ≡ after_call (At address (Write register word)) (state_of B.Bank.slots self.old) }
    {
        self.bus.write_register(address, register, word)?;
        Ok(())
    }

    // A line of the MMD goes up or down.
    pub fn line(&mut self, address: MmdAddress, number: u8, up: bool) -> Result<(), CallRefusal>
        ensures answer { done_as result ≡ answer_of (At address (Line number up)) (state_of B.Bank.slots self.old) }
        ensures after { state_of B.Bank.slots self.new ≡ after_call (At address (Line number up)) (state_of B.Bank.slots self.old) }
    {
        self.event(address, Event::Line { number, up })
    }

    // A counter of the MMD counts an amount.
    pub fn count(
        &mut self,
        address: MmdAddress,
        counter: u8,
        amount: u16,
    ) -> Result<(), CallRefusal>
        ensures answer { done_as result ≡ answer_of (At address (Count counter amount)) (state_of B.Bank.slots self.old) }
        ensures after { state_of B.Bank.slots self.new ≡ after_call (At address (Count counter amount)) (state_of B.Bank.slots self.old) }
    {
        self.event(address, Event::Count { counter, amount })
    }

    // What a self-clearing bit had started has ended.
    pub fn finish(&mut self, address: MmdAddress, register: u16, bit: u8) -> Result<(), CallRefusal>
        ensures answer { done_as result ≡ answer_of (At address (Finish register bit)) (state_of B.Bank.slots self.old) }
        ensures after { state_of B.Bank.slots self.new ≡ after_call (At address (Finish register bit)) (state_of B.Bank.slots self.old) }
    {
        self.event(address, Event::Finish { register, bit })
    }

    // Reads all entries of the MMD in list order, and then resets it.
    pub fn reset(&mut self, address: MmdAddress) -> Result<(), CallRefusal>
        ensures answer { done_as result ≡ answer_of (At address Reset) (state_of B.Bank.slots self.old) }
        ensures after { state_of B.Bank.slots self.new ≡ after_call (At address Reset) (state_of B.Bank.slots self.old) }
    {
        if !address.is_addressable() {
            return Err(CallRefusal::OutOfRange);
        }
        self.sweep(address);
        self.event(address, Event::Reset)
    }
}
