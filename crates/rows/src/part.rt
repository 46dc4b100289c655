// The parts that rows have of counters.
ghost use Rattle.std.specs.Prelude.{◌≡◌};
ghost use Rattle.rows.specs.Parts.{counter_named};

use crate::row::Content;

// What a row has of a counter: all of a short one, or a half of a long one.
#[derive(Clone, Copy, PartialEq, Eq, Debug)]
pub(crate) enum Part {
    Short,
    High,
    Low,
}

impl Content {
    // The number of the counter that is named, and the part.
    pub(crate) fn counter(self) -> Option<(u16, Part)>
        ensures { result ≡ counter_named self }
    {
        match self {
            Content::ShortCounter(number) => Some((number, Part::Short)),
            Content::HighHalf(number) => Some((number, Part::High)),
            Content::LowHalf(number) => Some((number, Part::Low)),
            _ => None,
        }
    }
}
