// What a station answers.
ghost use Rattle.std.specs.Prelude.{◌≡◌, MatchResult};
ghost use Rattle.call.specs.Answers.{number_of, refusal_from};
ghost use Rattle.call.specs.declared.answer.Answer.TheVariants.{Data, Told, Done, Refused};

use bus::answer::BusRefusal;
use mmd::refusal::MmdRefusal;
use thiserror::Error;

#[derive(Clone, Copy, PartialEq, Eq, Debug, Error)]
pub enum CallRefusal {
    #[error("port, device or line above 31, watcher above 7, entry not listed, counter or bit above 15")]
    OutOfRange,
    #[error("no slot has the port")]
    NoPort,
    #[error("the port has no such device")]
    NoDevice,
    // the MMD refuses
    #[error(transparent)]
    Mmd(MmdRefusal),
}

impl CallRefusal {
    // The refusal's number on the card. By a match: a refusal that holds an MMD's has the MMD's number.
    pub fn number(self) -> u8
        ensures { result ≡ number_of self }
    {
        match self {
            CallRefusal::OutOfRange => 5,
            CallRefusal::NoPort => 3,
            CallRefusal::NoDevice => 4,
            CallRefusal::Mmd(refusal) => refusal.number(),
        }
    }
}

// A frame that the station builds is refused only for an address above 31.
impl From<BusRefusal> for CallRefusal {
    ghost from_gives = { λ e r. r ≡ refusal_from e };

    fn from(refusal: BusRefusal) -> CallRefusal {
        match refusal {
            BusRefusal::Frame(_) => CallRefusal::OutOfRange,
            BusRefusal::NoPort => CallRefusal::NoPort,
            BusRefusal::NoDevice => CallRefusal::NoDevice,
            BusRefusal::Mmd(refusal) => CallRefusal::Mmd(refusal),
        }
    }
}

// An enum of its own and no Result: as one it would need a second enum, for what is well, and each case be named twice.
#[derive(Clone, Copy, PartialEq, Eq, Debug)]
pub enum Answer {
    // a plain read: the register's 16 bits
    Data(u16),
    // a watch read: what the watcher was owed
    Told(u32),
    Done,
    Refused(CallRefusal),
}

// What a plain read gives.
impl From<u16> for Answer {
    ghost from_gives = { λ word answer. answer ≡ Data word };

    fn from(word: u16) -> Answer {
        Answer::Data(word)
    }
}

// What a watch read gives.
impl From<u32> for Answer {
    ghost from_gives = { λ word answer. answer ≡ Told word };

    fn from(word: u32) -> Answer {
        Answer::Told(word)
    }
}

// What every other call gives.
impl From<()> for Answer {
    ghost from_gives = { λ _ answer. answer ≡ Done };

    fn from(_done: ()) -> Answer {
        Answer::Done
    }
}

impl From<CallRefusal> for Answer {
    ghost from_gives = { λ refusal answer. answer ≡ Refused refusal };

    fn from(refusal: CallRefusal) -> Answer {
        Answer::Refused(refusal)
    }
}

// What a call gives, or its refusal.
impl<T: Into<Answer>> From<Result<T, CallRefusal>> for Answer {
    ghost from_gives = { λ given answer. MatchResult given (λ value. T.Into.converts value answer) (λ refusal. answer ≡ Refused refusal) };

    fn from(given: Result<T, CallRefusal>) -> Answer {
        match given {
            Ok(value) => value.into(),
            Err(refusal) => refusal.into(),
        }
    }
}
