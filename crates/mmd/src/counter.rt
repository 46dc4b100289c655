// A counter of events, with the copy that a long counter holds of it.
ghost use Rattle.std.specs.Prelude.{◌≡◌, ◌+◌, min};

#[derive(Clone, Copy, PartialEq, Eq, Debug)]
pub struct Counter {
    pub value: u32,
    pub held: u32,
}

impl Counter {
    pub const ZERO: Counter = Counter { value: 0, held: 0 };

    // Some events more; the counter stops at its top.
    pub fn add(self, amount: u16, top: u32) -> Counter
        ensures { result ≡ record { value = min top (self.value + amount); held = self.held } }
    {
        let value = self.value.saturating_add(u32::from(amount)).min(top);
        Counter { value, ..self }
    }

    // The count goes into the held copy, and starts again from zero.
    pub fn hold(self) -> Counter
        ensures { result ≡ record { value = 0; held = self.value } }
    {
        Counter {
            value: 0,
            held: self.value,
        }
    }

    // The count starts again from zero; the held copy stays.
    pub fn clear(self) -> Counter
        ensures { result ≡ record { value = 0; held = self.held } }
    {
        Counter {
            value: 0,
            held: self.held,
        }
    }
}
