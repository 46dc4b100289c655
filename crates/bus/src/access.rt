// What a station asks of the bus: registers, by an address frame and then a read or a write frame, and the frame count.
ghost use Rattle.std.specs.Prelude.{◌≡◌, ◌+◌, ◌%◌, is_ok, if◌then◌else◌};
ghost use Rattle.bus.specs.Answers.{frames_with};
ghost use Rattle.bus.specs.Sent.{after_sent, sent};
ghost use Rattle.frame.specs.Addresses.{addressable};
ghost use Rattle.bus.specs.Places.{accessed, frames_accessed, place, read_of, register_read, register_written, write_of};

use crate::answer::BusRefusal;
use crate::bus::Bus;
use bank::bank::Bank;
use frame::address::MmdAddress;
use frame::frame::{Frame, Operation};
use frame::word::build;

impl<B: Bank> Bus<B> {
    // Reads a register by an address and a read frame. A refused access changes nothing.
    pub fn read_register(&mut self, address: MmdAddress, register: u16) -> Result<u16, BusRefusal>
        ensures answer { result ≡ accessed address (read_of register (place address (B.Bank.slots self.old.bank))) }
        ensures slots { B.Bank.slots self.new.bank ≡ (if addressable address then register_read address register (B.Bank.slots self.old.bank) else B.Bank.slots self.old.bank) }
        ensures frames { self.new.frames ≡ frames_accessed self.old.frames result }
    {
        self.send(address, Operation::Address { register })?;
        let data = self.send(address, Operation::Read)?;
        // a read frame that is not refused is answered by data
        Ok(data.unwrap())
    }

    // Writes a register by an address and a write frame. A refused access changes nothing.
    pub fn write_register(
        &mut self,
        address: MmdAddress,
        register: u16,
        word: u16,
    ) -> Result<(), BusRefusal>
        ensures answer { result ≡ accessed address (write_of (place address (B.Bank.slots self.old.bank))) }
        ensures slots { B.Bank.slots self.new.bank ≡ (if addressable address then register_written address register word (B.Bank.slots self.old.bank) else B.Bank.slots self.old.bank) }
        ensures frames { self.new.frames ≡ frames_accessed self.old.frames result }
    {
        self.send(address, Operation::Address { register })?;
        self.send(address, Operation::Write { data: word })?;
        Ok(())
    }

    // How many frames were not refused, modulo 65,536.
    pub fn frames(&self) -> u16
        ensures { result ≡ self.now.frames }
    {
        self.frames
    }

    // Sends the frame of an operation. A refused one changes nothing.
    fn send(&mut self, address: MmdAddress, operation: Operation) -> Result<Option<u16>, BusRefusal>
        ensures answer { result ≡ sent address operation (B.Bank.slots self.old.bank) }
        ensures slots { B.Bank.slots self.new.bank ≡ after_sent address operation (B.Bank.slots self.old.bank) }
        ensures frames { self.new.frames ≡ frames_with self.old.frames result }
    {
        let word = build(Frame { address, operation })?;
        self.take_word(word)
    }
}
