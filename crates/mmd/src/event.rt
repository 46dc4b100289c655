// What reaches an MMD without a frame.

#[derive(Clone, Copy, PartialEq, Eq, Debug)]
pub enum Event {
    Line { number: u8, up: bool },
    Count { counter: u8, amount: u16 },
    Finish { register: u16, bit: u8 },
    Reset,
}
