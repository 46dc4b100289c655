// Why a trace ends, and why a line is not written. A refusal's number on the card is its discriminant.
ghost use Rattle.std.specs.Prelude.{◌≡◌};
ghost use Rattle.trace_format.specs.Numbers.{buffer_number, trace_number};

use thiserror::Error;

#[derive(Clone, Copy, PartialEq, Eq, Debug, Error)]
pub enum TraceRefusal {
    #[error("the record's map is not listed")]
    UnlistedMap = 30,
    #[error("fewer bytes are left than the fields of the map take")]
    CutRecord = 31,
}

impl TraceRefusal {
    // The refusal's number on the card.
    pub fn number(self) -> u8
        ensures { result ≡ trace_number self }
    {
        self as u8
    }
}

#[derive(Clone, Copy, PartialEq, Eq, Debug, Error)]
pub enum BufferRefusal {
    #[error("the longest line does not fit the buffer")]
    Short = 32,
}

impl BufferRefusal {
    // The refusal's number on the card.
    pub fn number(self) -> u8
        ensures { result ≡ buffer_number self }
    {
        self as u8
    }
}
