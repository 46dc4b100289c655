// Why an MMD refuses a call.
ghost use Rattle.std.specs.Prelude.{◌≡◌};
ghost use Rattle.mmd.specs.Refusals.{number_of};

use thiserror::Error;

#[derive(Clone, Copy, PartialEq, Eq, Debug, Error)]
pub enum MmdRefusal {
    // of a count
    #[error("the counter has no field")]
    NoField,
    // of a finish
    #[error("the bit is not self-clearing")]
    NotSelfClearing,
}

impl MmdRefusal {
    // The refusal's number on the card.
    pub fn number(self) -> u8
        ensures { result ≡ number_of self }
    {
        // not by discriminants: a compiler that sees both numbers puts the line of a refused call together faster
        match self {
            MmdRefusal::NoField => 6,
            MmdRefusal::NotSelfClearing => 7,
        }
    }
}
