// A slot: an MMD at its address, with the address register that frames set.
ghost use Rattle.std.specs.Prelude.{◌≡◌, [], ◌∷◌};
ghost use Rattle.bank.specs.Banks.{slot_meaning};
ghost use Rattle.bank.specs.Deeds.{after_deed, done, taken_as, stepped};
ghost use Rattle.bank.specs.declared.deed.Deed.TheVariants.{Frame, Event as EventDeed};

use crate::bank::Bank;
use crate::deed::{Deed, Done};
use crate::wanted::Wanted;
use frame::address::MmdAddress;
use frame::frame::Operation;
use mmd::event::Event;
use mmd::mmd::Mmd;

#[derive(Drop)]
pub struct Slot<M> {
    pub(crate) address: MmdAddress,
    // where a write or a read frame acts
    pub(crate) register: u16,
    pub(crate) mmd: M,
}

impl<M: Mmd> Slot<M> {
    // A slot whose address register is at 0.
    pub fn new(address: MmdAddress, mmd: M) -> Slot<M>
        ensures { result ≡ record { address = address; register = 0; mmd = mmd } }
    {
        Slot {
            address,
            register: 0,
            mmd,
        }
    }

    fn work(&mut self, deed: Deed) -> Done
        ensures answer { result ≡ done deed (slot_meaning M.Mmd.meaning self.old) }
        ensures after { slot_meaning M.Mmd.meaning self.new ≡ after_deed deed (slot_meaning M.Mmd.meaning self.old) }
    {
        match deed {
            Deed::Frame(operation) => Ok(self.take_frame(operation)),
            Deed::Event(event) => self.take_event(event),
        }
    }

    // No frame is refused by an MMD.
    fn take_frame(&mut self, operation: Operation) -> Option<u16>
        ensures answer { Ok result ≡ done (Frame operation) (slot_meaning M.Mmd.meaning self.old) }
        ensures after { slot_meaning M.Mmd.meaning self.new ≡ after_deed (Frame operation) (slot_meaning M.Mmd.meaning self.old) }
    {
        match operation {
            Operation::Address { register } => {
                self.register = register;
                None
            }
            Operation::Write { data } => {
                self.mmd.write(self.register, data);
                None
            }
            Operation::Read => Some(self.mmd.read(self.register)),
            Operation::PostReadIncrement => {
                let data = self.mmd.read(self.register);
                self.register = self.register.saturating_add(1);
                Some(data)
            }
        }
    }

    fn take_event(&mut self, event: Event) -> Done
        ensures answer { result ≡ done (EventDeed event) (slot_meaning M.Mmd.meaning self.old) }
        ensures after { slot_meaning M.Mmd.meaning self.new ≡ after_deed (EventDeed event) (slot_meaning M.Mmd.meaning self.old) }
    {
        match event {
            Event::Line { number, up } => self.mmd.line(number, up),
            Event::Count { counter, amount } => self.mmd.count(counter, amount)?,
            Event::Finish { register, bit } => self.mmd.finish(register, bit)?,
            Event::Reset => self.mmd.reset(),
        }
        Ok(None)
    }
}

impl<M: Mmd> Bank for Slot<M> {
    ghost slots = { λ s. slot_meaning M.Mmd.meaning s ∷ [] };

    ghost mmds_keep_invariant = { λ b. (M.Mmd.keeps_invariant b.mmd, tt) };

    fn count(&self) -> u32 {
        1
    }

    fn find(&self, wanted: Wanted) -> Option<u16> {
        wanted.suits(self.address).then_some(0)
    }

    fn act(&mut self, slot: u16, deed: Deed) -> Option<Done> {
        if slot != 0 {
            return None;
        }
        Some(self.work(deed))
    }
}
