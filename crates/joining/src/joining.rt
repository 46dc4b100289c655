// A joining: how what a watcher is still owed is kept.
ghost use Rattle.std.specs.Prelude.{◌≡◌};

pub trait Joining: Copy {
    // what is read and taken in
    type Reading;

    // the word that owes nothing
    const EMPTY: Self;

    ghost EMPTY: { Self };

    ghost joined: { Self → Self → Self };

    // how a reading becomes a word
    ghost word: { Self.Reading → Self };

    // the words that there are: a law ranges over all numbers, a word's parts are some bits wide
    ghost fits: { Self → Type 0 };

    fn word_of(reading: Self::Reading) -> Self
        ensures value { result ≡ word reading }
        ensures fits { fits result };

    fn join(self, more: Self) -> Self
        ensures value { result ≡ joined self more }
        ensures fits { fits result };

    ghost associative: { (a b c : Self) → joined (joined a b) c ≡ joined a (joined b c) };

    ghost empty_before: { (a : Self) → fits a → joined EMPTY a ≡ a };

    ghost empty_after: { (a : Self) → fits a → joined a EMPTY ≡ a };

    ghost empty_fits: { fits EMPTY };
}
