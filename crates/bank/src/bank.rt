// The interface of every bank: its slots, left to right, and what is asked of them by their numbers.
ghost use Rattle.std.specs.Prelude.{◌≡◌, min, List, length};
ghost use Rattle.bank.specs.Deeds.{after_at, done_at};
ghost use Rattle.bank.specs.Searches.{is_wanted};
ghost use Rattle.bank.specs.Slots.{SlotMeaning, earliest, numbered};
ghost use Rattle.mmd.specs.Invariant.{Keeps};
ghost use Rattle.std.specs.List.{AllByRecursion};

use crate::deed::{Deed, Done};
use crate::wanted::Wanted;

pub trait Bank {
    ghost slots: { Self → List SlotMeaning };

    // How many slots there are, up to 65,536.
    fn count(&self) -> u32
        ensures { result ≡ min 65536 (length (slots self.now)) };

    // The number of the earliest slot that is wanted.
    fn find(&self, wanted: Wanted) -> Option<u16>
        ensures { result ≡ numbered (earliest (is_wanted wanted) (slots self.now)) };

    // Does a deed at a slot's number; nothing, where there is no such slot.
    fn act(&mut self, slot: u16, deed: Deed) -> Option<Done>
        ensures answer { result ≡ done_at slot deed (slots self.old) }
        ensures after { slots self.new ≡ after_at slot deed (slots self.old) };

    ghost mmds_keep_invariant: { (b : Self) → AllByRecursion (λ s. Keeps s.mmd) (slots b) };
}
