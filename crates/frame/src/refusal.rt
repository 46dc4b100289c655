// Why a frame word is refused. A refusal's number on the card is its discriminant.
ghost use Rattle.std.specs.Prelude.{◌≡◌};
ghost use Rattle.frame.specs.Numbers.{number_of};

use thiserror::Error;

#[derive(Clone, Copy, PartialEq, Eq, Debug, Error)]
pub enum FrameRefusal {
    #[error("start of frame is not 00")]
    Start = 1,
    #[error("turnaround of an address or write frame is not 10")]
    Turnaround = 2,
    #[error("port or device above 31")]
    Address = 5,
}

impl FrameRefusal {
    // The refusal's number on the card.
    pub fn number(self) -> u8
        ensures { result ≡ number_of self }
    {
        self as u8
    }
}
