// The lines of an input, numbered from 1.
ghost use Rattle.std.specs.Prelude.{◌≡◌};
ghost use Rattle.frames.specs.Listings.{ended_by, after_byte, unended};

use crate::scan::{Line, Scan};

#[derive(Clone, Copy, PartialEq, Eq, Debug)]
pub struct NumberedLine {
    pub number: u64,
    pub line: Line,
}

// Where a listing stands in its input.
#[derive(Clone, Copy, PartialEq, Eq, Debug)]
pub struct Listing {
    number: u64,
    scan: Scan,
}

impl Listing {
    pub fn new() -> Listing
        ensures { result ≡ record { number = 1; scan = Scan.Blank } }
    {
        Listing {
            number: 1,
            scan: Scan::Blank,
        }
    }

    // Takes one byte in, and gives the line that it ends.
    pub fn take(&mut self, byte: u8) -> Option<NumberedLine>
        ensures ended { result ≡ ended_by self.old byte }
        ensures after { self.new ≡ after_byte self.old byte }
    {
        if byte == b'\n' {
            let ended = self.last();
            self.number = self.number.saturating_add(1);
            self.scan = Scan::Blank;
            Some(ended)
        } else {
            self.scan = self.scan.take(byte);
            None
        }
    }

    // The line that no line end has ended.
    pub fn last(&self) -> NumberedLine
        ensures { result ≡ unended self.now }
    {
        NumberedLine {
            number: self.number,
            line: self.scan.line(),
        }
    }
}
