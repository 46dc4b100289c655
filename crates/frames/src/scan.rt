// One line of text, taken in a byte at a time, so that a line of any length needs no memory.
ghost use Rattle.std.specs.Prelude.{◌≡◌, ◌<◌};
ghost use Rattle.frames.specs.Scans.{glyph_of, next, line_of};
ghost use Rattle.frames.specs.Lines.{HoldsWhatWasScanned};

// What a line holds. Three names and no Result of an Option: a line that is no word is no error.
#[derive(Clone, Copy, PartialEq, Eq, Debug)]
pub enum Line {
    Blank,
    Word(u32),
    Other,
}

// What a byte can be within a line.
#[derive(Clone, Copy, PartialEq, Eq, Debug)]
pub enum Glyph {
    White,
    Digit(u32),
    // the x of 0x
    Cross,
    Other,
}

// How far a line has come.
#[derive(Clone, Copy, PartialEq, Eq, Debug)]
pub enum Scan {
    // white space, or nothing
    Blank,
    // a 0, which is a word or begins 0x
    Zero,
    // 0x, and no digit yet
    Prefix,
    // one to eight digits
    Digits { count: u8, value: u32 },
    // white space after a word
    Ended { value: u32 },
    // no frame word, whatever comes
    Other,
}

impl Scan {
    // The scan with one byte more of its line.
    pub fn take(self, byte: u8) -> Scan
        ensures { result ≡ next self (glyph_of byte) }
    {
        match glyph_of(byte) {
            Glyph::White => self.white(),
            Glyph::Digit(digit) => self.digit(digit),
            Glyph::Cross => self.cross(),
            Glyph::Other => Scan::Other,
        }
    }

    // What the line holds, if it ends here.
    pub fn line(self) -> Line
        ensures value { result ≡ line_of self }
        ensures holds { HoldsWhatWasScanned self result }
    {
        match self {
            Scan::Blank => Line::Blank,
            Scan::Zero => Line::Word(0),
            Scan::Digits { count: _, value } => Line::Word(value),
            Scan::Ended { value } => Line::Word(value),
            Scan::Prefix | Scan::Other => Line::Other,
        }
    }

    fn white(self) -> Scan
        ensures { result ≡ next self Glyph.White }
    {
        match self {
            Scan::Blank => Scan::Blank,
            Scan::Zero => Scan::Ended { value: 0 },
            Scan::Digits { count: _, value } => Scan::Ended { value },
            Scan::Ended { value } => Scan::Ended { value },
            Scan::Prefix | Scan::Other => Scan::Other,
        }
    }

    fn digit(self, digit: u32) -> Scan
        requires { digit < 16 }
        ensures { result ≡ next self (Glyph.Digit digit) }
    {
        match self {
            Scan::Blank if digit == 0 => Scan::Zero,
            Scan::Blank | Scan::Prefix => Scan::Digits {
                count: 1,
                value: digit,
            },
            Scan::Zero => Scan::Digits {
                count: 2,
                value: digit,
            },
            Scan::Digits { count, value } if count < MAX_DIGITS => Scan::Digits {
                count: count + 1,
                value: (value << 4) + digit,
            },
            Scan::Digits { .. } | Scan::Ended { .. } | Scan::Other => Scan::Other,
        }
    }

    fn cross(self) -> Scan
        ensures { result ≡ next self Glyph.Cross }
    {
        match self {
            Scan::Zero => Scan::Prefix,
            _ => Scan::Other,
        }
    }
}

const MAX_DIGITS: u8 = 8;

fn glyph_of(byte: u8) -> Glyph
    ensures { result ≡ glyph_of byte }
{
    if byte.is_ascii_whitespace() {
        return Glyph::White;
    }
    if let Some(digit) = char::from(byte).to_digit(16) {
        return Glyph::Digit(digit);
    }
    match byte {
        b'x' | b'X' => Glyph::Cross,
        _ => Glyph::Other,
    }
}
