// What can be wrong with a watch list. A fault's number on the card is its discriminant.
ghost use Rattle.std.specs.Prelude.{◌≡◌};
ghost use Rattle.watch_list.specs.Checks.{number_of};

use thiserror::Error;

#[derive(Clone, Copy, PartialEq, Eq, Debug, Error)]
pub enum ListFault {
    #[error("more than 16 entries")]
    TooManyEntries = 20,
    #[error("port or device above 31, a bit in both masks, or one register for both halves")]
    Malformed = 21,
    #[error("an earlier entry of that MMD names one of the registers")]
    RegisterTaken = 22,
}

impl ListFault {
    // The refusal's number on the card.
    pub fn number(self) -> u8
        ensures { result ≡ number_of self }
    {
        self as u8
    }
}
