// What the bus answers.
ghost use Rattle.std.specs.Prelude.{◌≡◌};
ghost use Rattle.bus.specs.Answers.{number_of, told};
ghost use Rattle.bus.specs.declared.answer.BusRefusal.TheVariants.{Frame, Mmd};

use frame::refusal::FrameRefusal;
use mmd::refusal::MmdRefusal;
use std::fmt;
use thiserror::Error;

#[derive(Clone, Copy, PartialEq, Eq, Debug, Error)]
pub enum BusRefusal {
    // the word is no frame
    #[error(transparent)]
    Frame(FrameRefusal),
    #[error("no slot has the port")]
    NoPort,
    #[error("the port has no such device")]
    NoDevice,
    // the MMD refuses the event
    #[error(transparent)]
    Mmd(MmdRefusal),
}

impl BusRefusal {
    // The refusal's number on the card. By a match: a refusal that holds another one has its number.
    pub fn number(self) -> u8
        ensures { result ≡ number_of self }
    {
        match self {
            BusRefusal::Frame(refusal) => refusal.number(),
            BusRefusal::NoPort => 3,
            BusRefusal::NoDevice => 4,
            BusRefusal::Mmd(refusal) => refusal.number(),
        }
    }
}

impl From<FrameRefusal> for BusRefusal {
    ghost from_gives = { λ e r. r ≡ Frame e };

    fn from(refusal: FrameRefusal) -> BusRefusal {
        BusRefusal::Frame(refusal)
    }
}

impl From<MmdRefusal> for BusRefusal {
    ghost from_gives = { λ e r. r ≡ Mmd e };

    fn from(refusal: MmdRefusal) -> BusRefusal {
        BusRefusal::Mmd(refusal)
    }
}

// A frame is answered by data, by taken, or by a refusal. It is an enum of its own and no Result, so that a frame's answer
// reads as the manual has it: a rule of the project.
#[derive(Clone, Copy, PartialEq, Eq, Debug)]
pub enum BusAnswer {
    Data(u16),
    Taken,
    Refused(BusRefusal),
}

impl From<Result<Option<u16>, BusRefusal>> for BusAnswer {
    ghost from_gives = { λ r a. a ≡ told r };

    fn from(outcome: Result<Option<u16>, BusRefusal>) -> BusAnswer {
        match outcome {
            Ok(Some(word)) => BusAnswer::Data(word),
            Ok(None) => BusAnswer::Taken,
            Err(refusal) => BusAnswer::Refused(refusal),
        }
    }
}

// In plain words.
impl fmt::Display for BusAnswer {
    fn fmt<W: fmt::Write>(&self, f: &mut fmt::Formatter<W>) -> fmt::Result {
        match *self {
            BusAnswer::Data(word) => write!(f, "data {word:#06x}"),
            BusAnswer::Taken => f.write_str("taken"),
            BusAnswer::Refused(refusal) => {
                let number = refusal.number();
                write!(f, "refused {number}: {refusal}")
            }
        }
    }
}
