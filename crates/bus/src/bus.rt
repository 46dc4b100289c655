// The bus: a bank, and the count of the frames that it did not refuse.
ghost use Rattle.std.specs.Prelude.{◌≡◌, ◌<◌};
ghost use Rattle.bank.specs.declared.deed.Deed.TheVariants.{Event as EventDeed};
ghost use Rattle.bus.specs.Answers.{absent, after_found, after_frame, done_there, event_at, frame_answer, frame_result, frames_after, frames_with, slot_at};
ghost use Rattle.bus.specs.Places.{event_of, event_taken, place, worked};

use crate::answer::{BusAnswer, BusRefusal};
use bank::bank::Bank;
use bank::deed::Deed;
use bank::wanted::Wanted;
use frame::address::MmdAddress;
use frame::word::split;
use mmd::event::Event;

// No impl Model: its value would hold register meanings, which are functions and have no code, as the check says.
#[derive(Drop)]
pub struct Bus<B> {
    pub(crate) bank: B,
    pub(crate) frames: u16,
    // the count fits its type
    ghost counted: { frames < 65536 },
}

impl<B: Bank> Bus<B> {
    pub fn new(bank: B) -> Bus<B>
        ensures bank { result.bank ≡ bank }
        ensures frames { result.frames ≡ 0 }
    {
        Bus { bank, frames: 0 }
    }

    // Answers a frame word. A refused one changes nothing.
    pub fn frame(&mut self, word: u32) -> BusAnswer
        ensures answer { result ≡ frame_answer word (B.Bank.slots self.old.bank) }
        ensures slots { B.Bank.slots self.new.bank ≡ after_frame word (B.Bank.slots self.old.bank) }
        ensures frames { self.new.frames ≡ frames_after self.old.frames result }
    {
        BusAnswer::from(self.take_word(word))
    }

    // Takes an event to the MMD at an address. A refused one changes nothing.
    pub fn event(&mut self, address: MmdAddress, event: Event) -> Result<(), BusRefusal>
        ensures answer { result ≡ event_at address event (B.Bank.slots self.old.bank) (slot_at address (B.Bank.slots self.old.bank)) }
        ensures slots { B.Bank.slots self.new.bank ≡ after_found (EventDeed event) (B.Bank.slots self.old.bank) (slot_at address (B.Bank.slots self.old.bank)) }
        ensures frames { self.new.frames ≡ self.old.frames }
        ensures place_answer { result ≡ event_of event (place address (B.Bank.slots self.old.bank)) }
        ensures place_slots { B.Bank.slots self.new.bank ≡ event_taken address event (B.Bank.slots self.old.bank) }
    {
        self.act(address, Deed::Event(event))?;
        Ok(())
    }

    // Takes a frame word: gives the data of a read, and none where another frame is taken. One that is not refused counts.
    pub(crate) fn take_word(&mut self, word: u32) -> Result<Option<u16>, BusRefusal>
        ensures answer { result ≡ frame_result word (B.Bank.slots self.old.bank) }
        ensures slots { B.Bank.slots self.new.bank ≡ after_frame word (B.Bank.slots self.old.bank) }
        ensures frames { self.new.frames ≡ frames_with self.old.frames result }
    {
        let frame = split(word)?;
        let data = self.act(frame.address, Deed::Frame(frame.operation))?;
        self.frames = self.frames.wrapping_add(1);
        Ok(data)
    }

    // Does a deed at the earliest slot with that address. A refused one changes nothing.
    fn act(&mut self, address: MmdAddress, deed: Deed) -> Result<Option<u16>, BusRefusal>
        ensures answer { result ≡ done_there address deed (B.Bank.slots self.old.bank) }
        ensures slots { B.Bank.slots self.new.bank ≡ after_found deed (B.Bank.slots self.old.bank) (slot_at address (B.Bank.slots self.old.bank)) }
        ensures frames { self.new.frames ≡ self.old.frames }
    {
        let Some(slot) = self.bank.find(Wanted::Mmd(address)) else {
            return Err(self.absent(address.port));
        };
        Ok(self.bank.act(slot, deed).transpose()?.flatten())
    }

    // Why there is nothing at an address of this port.
    fn absent(&self, port: u8) -> BusRefusal
        ensures { result ≡ absent port (B.Bank.slots self.now.bank) }
    {
        match self.bank.find(Wanted::Port(port)) {
            None => BusRefusal::NoPort,
            Some(_) => BusRefusal::NoDevice,
        }
    }
}
