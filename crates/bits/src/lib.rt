// Single bits of a word.
#![tactic(auto)]

ghost use Rattle.std.specs.Prelude.{◌≡◌, ◌/◌, ◌%◌, if◌then◌else◌};
ghost use Rattle.bits.specs.Bits.{bit, SetsBit};

// Whether a bit of a word is one; past bit 31 there is none.
pub fn is_one(word: u32, place: u16) -> bool
    ensures { result ≡ bit word place }
{
    place < 32 && (word >> place) & 1 == 1
}

// The word with one bit set to `one`; past bit 31 there is none to set.
pub fn with_bit(word: u32, place: u8, one: bool) -> u32
    ensures { SetsBit word place one result }
{
    if place >= 32 {
        return word;
    }
    let flag = 1 << place;
    let set = word | flag;
    if one { set } else { set ^ flag }
}

pub fn high_half(word: u32) -> u16
    ensures { result ≡ word / 65536 }
{
    (word >> 16) as u16
}

pub fn low_half(word: u32) -> u16
    ensures { result ≡ word % 65536 }
{
    (word & 0xffff) as u16
}

// Sixteen bits that are all alike.
pub fn sixteen(one: bool) -> u16
    ensures { result ≡ (if one then 65535 else 0) }
{
    if one { 0xffff } else { 0 }
}
