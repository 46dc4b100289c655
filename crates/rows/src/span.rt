// The bits of a register from a lowest to a highest one.
ghost use Rattle.std.specs.Prelude.{◌≡◌, ◌+◌, ◌-◌, ◌≤◌, ◌↔◌, ◌==◌, ◌&&◌, IsSome, IfSome};

const LAST_BIT: u8 = 15;

#[derive(Clone, Copy, PartialEq, Eq, Debug)]
pub struct Span {
    pub low: u8,
    pub high: u8,
    ghost ordered: { low ≤ high },
    ghost within_register: { high ≤ 15 },
}

impl Span {
    // The span from one bit to another, where there is one within a register.
    pub fn new(low: u8, high: u8) -> Option<Span>
        ensures within { IsSome result ↔ ((low ≤ high) × (high ≤ 15)) }
        ensures bounds { IfSome result (λ span. (span.low ≡ low) × (span.high ≡ high)) }
    {
        if low <= high && high <= LAST_BIT {
            Some(Span { low, high })
        } else {
            None
        }
    }

    // How many bits it has.
    pub fn width(self) -> u8
        ensures { result ≡ self.high + 1 - self.low }
    {
        self.high + 1 - self.low
    }

    pub(crate) fn is_one_bit(self) -> bool
        ensures { result ≡ (self.low == self.high) }
    {
        self.low == self.high
    }

    pub(crate) fn is_whole_register(self) -> bool
        ensures { result ≡ ((self.low == 0) && (self.high == 15)) }
    {
        self.low == 0 && self.high == LAST_BIT
    }
}
