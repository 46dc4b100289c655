// A field of a 32-bit word: a run of bits, by its lowest bit and its width.
ghost use Rattle.std.specs.Prelude.{◌≡◌, ◌+◌, ◌*◌, ◌/◌, ◌%◌, ◌^◌, ◌<◌, ◌≤◌};

#[derive(Clone, Copy, PartialEq, Eq, Debug)]
pub struct Field {
    pub low: u32,
    pub width: u32,
    ghost narrow: { width < 32 },
    ghost within_word: { low + width ≤ 32 },
    ghost low_within_word: { low < 32 },
}

impl Field {
    // What the field holds in a word.
    pub fn of(self, word: u32) -> u32
        ensures { result ≡ word / 2 ^ self.low % 2 ^ self.width }
    {
        let mask = (1 << self.width) - 1;
        (word >> self.low) & mask
    }

    // A word with a value put into this field; so far the word is zero there and below.
    pub fn put(self, word: u32, value: u32) -> u32
        requires clear { word % 2 ^ (self.low + self.width) ≡ 0 }
        requires fits { value < 2 ^ self.width }
        ensures { result ≡ word + value * 2 ^ self.low }
    {
        word | (value << self.low)
    }
}
