// What a watcher is owed of a latch register: every reading since its last look, joined bit by bit.
ghost use Rattle.joining.specs.Words.{latch_empty, LatchFits, latch_joined, latch_word};
ghost use Rattle.joining.specs.Laws.{latch_assoc, latch_before, latch_after};
ghost use Rattle.std.proofs.Common.{rules};

use crate::joining::Joining;

#[derive(Clone, Copy, PartialEq, Eq, Debug)]
pub struct LatchWord {
    // the bits that some reading had: the OR of all
    pub any: u16,
    // the bits that every reading had: the AND of all
    pub all: u16,
}

impl Joining for LatchWord {
    type Reading = u16;

    const EMPTY: LatchWord = LatchWord {
        any: 0,
        all: 0xffff,
    };

    ghost EMPTY = { latch_empty };

    ghost joined = { latch_joined };

    ghost word = { latch_word };

    ghost fits = { LatchFits };

    ghost associative = { latch_assoc };

    ghost empty_before = { latch_before };

    ghost empty_after = { latch_after };

    ghost empty_fits = { Prim.search rules };

    fn word_of(reading: u16) -> LatchWord {
        LatchWord {
            any: reading,
            all: reading,
        }
    }

    fn join(self, more: LatchWord) -> LatchWord {
        LatchWord {
            any: self.any | more.any,
            all: self.all & more.all,
        }
    }
}
