// An entry of the watch list: a register with latching bits, or the two halves of a counter.
ghost use Rattle.std.specs.Prelude.{◌≡◌, ◌==◌};
ghost use Rattle.watch_list.specs.Entries.{address_of, fed_by, is_of, names};
ghost use Rattle.watch_list.specs.Watches.{latch_told};

use frame::address::MmdAddress;
use joining::latch::LatchWord;

#[derive(Clone, Copy, PartialEq, Eq, Debug)]
pub struct LatchEntry {
    pub address: MmdAddress,
    pub register: u16,
    // the bits that are told as one where any reading had a one
    pub high_mask: u16,
    // the bits that are told as zero where any reading had a zero
    pub low_mask: u16,
}

impl LatchEntry {
    // What a word tells under the masks: the OR under the high mask, the AND under the low mask.
    #[tactic(auto, unfolding(crate::specs::Watches::latch_told))]
    pub fn told(&self, word: LatchWord) -> u16
        ensures { result ≡ latch_told self.now word }
    {
        (word.any & self.high_mask) | (word.all & self.low_mask)
    }
}

#[derive(Clone, Copy, PartialEq, Eq, Debug)]
pub struct CountEntry {
    pub address: MmdAddress,
    // the registers of the high half and of the low half
    pub high: u16,
    pub low: u16,
}

#[derive(Clone, Copy, PartialEq, Eq, Debug)]
pub enum Entry {
    Latch(LatchEntry),
    Count(CountEntry),
}

impl Entry {
    pub fn address(&self) -> MmdAddress
        ensures { result ≡ address_of self.now }
    {
        match self {
            Entry::Latch(entry) => entry.address,
            Entry::Count(entry) => entry.address,
        }
    }

    // Whether the entry is of the MMD at that address.
    pub fn is_of(&self, address: MmdAddress) -> bool
        ensures { result ≡ is_of address self.now }
    {
        self.address() == address
    }

    // Whether a reading of that register feeds the entry: its own register, or that of the high half.
    pub fn is_fed_by(&self, register: u16) -> bool
        ensures { result ≡ (fed_by self.now == register) }
    {
        match self {
            Entry::Latch(entry) => entry.register == register,
            Entry::Count(entry) => entry.high == register,
        }
    }

    // Whether the entry names that register.
    pub fn names(&self, register: u16) -> bool
        ensures { result ≡ names register self.now }
    {
        match self {
            Entry::Latch(entry) => entry.register == register,
            Entry::Count(entry) => entry.high == register || entry.low == register,
        }
    }
}
