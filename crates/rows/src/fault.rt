// What can be wrong with a table of rows.
ghost use Rattle.std.specs.Prelude.{◌≡◌};
ghost use Rattle.rows.specs.Faults.{number_of};

use thiserror::Error;

// Each with its refusal's number on the card.
#[derive(Clone, Copy, PartialEq, Eq, Debug, Error)]
pub enum TableFault {
    #[error("more than 64 rows")]
    TooManyRows = 10,
    #[error("kind outside 1 to 9")]
    Kind = 11,
    #[error("high above 15, low above high, or a span that is wrong for the kind")]
    Span = 12,
    #[error("value too wide, line above 31, counter above 15, or kind 6 with a number other than 0")]
    Number = 13,
    #[error("register below the previous row's, or the same register and low not above its high")]
    Order = 14,
    #[error("the counter has a field, and the row is not its missing half")]
    Counter = 15,
    #[error("the other half is missing")]
    Partner = 16,
}

impl TableFault {
    // The refusal's number on the card.
    pub fn number(self) -> u8
        ensures { result ≡ number_of self }
    {
        self as u8
    }
}
