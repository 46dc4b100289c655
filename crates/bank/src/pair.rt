// Two banks side by side: the slots of the left one come first.
ghost use Rattle.std.specs.Prelude.{◌≡◌, ◌++◌, None};
ghost use Rattle.bank.specs.Slots.{beside};
ghost use Rattle.std.proofs.ByRecursion.{All-append};
ghost use Rattle.mmd.specs.Invariant.{Keeps};

use crate::bank::Bank;
use crate::deed::{Deed, Done};
use crate::wanted::Wanted;

#[derive(Drop)]
pub struct Pair<L, R> {
    pub left: L,
    pub right: R,
}

const SLOTS: u32 = 65536;

impl<L: Bank, R: Bank> Bank for Pair<L, R> {
    ghost slots = { λ p. L.Bank.slots p.left ++ R.Bank.slots p.right };

    ghost mmds_keep_invariant = { λ b. All-append (λ s. Keeps s.mmd) (L.Bank.slots b.left) (R.Bank.slots b.right) (L.Bank.mmds_keep_invariant b.left) (R.Bank.mmds_keep_invariant b.right) };

    fn count(&self) -> u32 {
        (self.left.count() + self.right.count()).min(SLOTS)
    }

    fn find(&self, wanted: Wanted) -> Option<u16> {
        if let Some(slot) = self.left.find(wanted) {
            return Some(slot);
        }
        behind(self.left.count(), self.right.find(wanted))
    }

    fn act(&mut self, slot: u16, deed: Deed) -> Option<Done> {
        let count = self.left.count();
        let number = u32::from(slot);
        if number < count {
            return self.left.act(slot, deed);
        }
        self.right.act((number - count) as u16, deed)
    }
}

// A slot of the right bank, by its number behind the left ones.
fn behind(count: u32, right: Option<u16>) -> Option<u16>
    ensures { result ≡ beside None count right }
{
    let number = count.saturating_add(u32::from(right?));
    if number >= SLOTS {
        return None;
    }
    Some(number as u16)
}
