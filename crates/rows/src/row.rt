// A row of a layout, as a data sheet lists it: a register, a span of its bits, a kind and a number.
ghost use Rattle.std.specs.Prelude.{◌≡◌};
ghost use Rattle.rows.specs.Rows.{content_numbered, content_of, covers};
ghost use Rattle.rows.specs.Orders.{in_order};

// What a data sheet lists need not fit: a kind outside 1 to 9 is refused by 11, a wrong span by 12, a wrong number by 13.
#[derive(Clone, Copy, PartialEq, Eq, Debug)]
pub struct Row {
    pub register: u16,
    pub high: u8,
    pub low: u8,
    pub kind: u8,
    pub number: u16,
}

// What a row puts into its span: its kind, with its number as that kind reads it.
#[derive(Clone, Copy, PartialEq, Eq, Debug)]
pub enum Content {
    // kind 1, with the value
    Fixed(u16),
    // kinds 2, 3 and 4, with the line
    Follower(u16),
    LatchingHigh(u16),
    LatchingLow(u16),
    // kind 5, with the default
    Setting(u16),
    // kind 6
    SelfClearing,
    // kinds 7, 8 and 9, with the counter
    ShortCounter(u16),
    HighHalf(u16),
    LowHalf(u16),
}

impl Row {
    // None where the kind is none of 1 to 9.
    pub fn content(&self) -> Option<Content>
        ensures { result ≡ content_of self.now }
    {
        content_numbered(self.kind, self.number)
    }

    pub fn covers(&self, register: u16, bit: u8) -> bool
        ensures { result ≡ covers self.now register bit }
    {
        self.register == register && self.low <= bit && bit <= self.high
    }

    // The row may stand right before another: registers rise, and spans within one register.
    pub(crate) fn comes_before(&self, next: &Row) -> bool
        ensures { result ≡ in_order self.now next.now }
    {
        self.register < next.register || self.register == next.register && self.high < next.low
    }
}

fn content_numbered(kind: u8, number: u16) -> Option<Content>
    ensures { result ≡ content_numbered kind number }
{
    match kind {
        1 => Some(Content::Fixed(number)),
        2 => Some(Content::Follower(number)),
        3 => Some(Content::LatchingHigh(number)),
        4 => Some(Content::LatchingLow(number)),
        5 => Some(Content::Setting(number)),
        6 => Some(Content::SelfClearing),
        7 => Some(Content::ShortCounter(number)),
        8 => Some(Content::HighHalf(number)),
        9 => Some(Content::LowHalf(number)),
        _ => None,
    }
}
