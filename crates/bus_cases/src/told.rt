// What is told of a step, as the end of its line.
ghost use Rattle.std.specs.Prelude.{◌≡◌, MatchResult};
ghost use Rattle.bus.specs.Answers.{number_of};
ghost use Rattle.bus_cases.specs.declared.told.Told.TheVariants.{Refused, Taken, Word};
ghost use Rattle.bus_cases.specs.Told.{done_told, frame_told};

use bank::deed::Done;
use bus::answer::{BusAnswer, BusRefusal};
use std::fmt;

// The ends that a line can have: not what an answer is, but how it is shown.
#[derive(Clone, Copy, PartialEq, Eq, Debug)]
pub enum Told {
    Word(u16),
    Taken,
    Refused(u8),
    Frames(u16),
    Nothing,
}

impl fmt::Display for Told {
    fn fmt<W: fmt::Write>(&self, f: &mut fmt::Formatter<W>) -> fmt::Result {
        match *self {
            Told::Word(word) => write!(f, "{word:#06x}"),
            Told::Taken => f.write_str("taken"),
            Told::Refused(number) => write!(f, "refused {number}"),
            Told::Frames(count) => write!(f, "{count} frames"),
            Told::Nothing => f.write_str("nothing"),
        }
    }
}

// What a register read gives.
impl From<u16> for Told {
    ghost from_gives = { λ word told. told ≡ Word word };

    fn from(word: u16) -> Told {
        Told::Word(word)
    }
}

// What a register write or an event gives.
impl From<()> for Told {
    ghost from_gives = { λ _ told. told ≡ Taken };

    fn from(_taken: ()) -> Told {
        Told::Taken
    }
}

impl From<BusRefusal> for Told {
    ghost from_gives = { λ refusal told. told ≡ Refused (number_of refusal) };

    fn from(refusal: BusRefusal) -> Told {
        Told::Refused(refusal.number())
    }
}

impl From<BusAnswer> for Told {
    ghost from_gives = { λ answer told. told ≡ frame_told answer };

    fn from(answer: BusAnswer) -> Told {
        match answer {
            BusAnswer::Data(word) => word.into(),
            BusAnswer::Taken => Told::Taken,
            BusAnswer::Refused(refusal) => refusal.into(),
        }
    }
}

// Of a register access or an event: what it gives, or its refusal.
impl<T: Into<Told>> From<Result<T, BusRefusal>> for Told {
    ghost from_gives = { λ given told. MatchResult given (λ value. T.Into.converts value told) (λ refusal. told ≡ Refused (number_of refusal)) };

    fn from(given: Result<T, BusRefusal>) -> Told {
        match given {
            Ok(value) => value.into(),
            Err(refusal) => refusal.into(),
        }
    }
}

// Of a deed at a slot.
impl From<Option<Done>> for Told {
    ghost from_gives = { λ done told. told ≡ done_told done };

    fn from(done: Option<Done>) -> Told {
        match done {
            Some(Ok(Some(word))) => word.into(),
            Some(Ok(None)) => Told::Taken,
            Some(Err(refusal)) => Told::Refused(refusal.number()),
            None => Told::Nothing,
        }
    }
}
