// What a watcher is owed of a counter: the sum of the readings since its last look.
ghost use Rattle.joining.specs.Words.{count_empty, CountFits, count_joined, count_word};
ghost use Rattle.std.proofs.Common.{rules};

use crate::joining::Joining;

#[derive(Clone, Copy, PartialEq, Eq, Debug)]
pub struct CountWord {
    // stops at 4,294,967,295
    pub sum: u32,
}

impl Joining for CountWord {
    type Reading = u32;

    const EMPTY: CountWord = CountWord { sum: 0 };

    ghost EMPTY = { count_empty };

    ghost joined = { count_joined };

    ghost word = { count_word };

    ghost fits = { CountFits };

    ghost associative = { unfold count_joined in Prim.search rules };

    ghost empty_before = { unfold count_joined in Prim.search rules };

    ghost empty_after = { unfold count_joined in Prim.search rules };

    ghost empty_fits = { Prim.search rules };

    fn word_of(reading: u32) -> CountWord {
        CountWord { sum: reading }
    }

    fn join(self, more: CountWord) -> CountWord {
        CountWord {
            sum: self.sum.saturating_add(more.sum),
        }
    }
}
