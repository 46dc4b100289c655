// The slot of a counter: where its field stands, and how far it has counted.
ghost use Rattle.std.specs.Prelude.{◌≡◌, slice_index_or};
ghost use Rattle.rows.specs.Checks.{joined};
ghost use Rattle.rows.specs.Parts.{lacks_partner, part_place, part_taken};
ghost use Rattle.rows.specs.Slots.{empty_slot};

use crate::fitting::FittingRow;
use crate::part::Part;
use mmd::counter::Counter;

#[derive(Clone, Copy, PartialEq, Eq, Debug)]
pub struct ShortPlace {
    pub register: u16,
    pub low: u8,
    pub width: u8,
}

// The rows that name a counter.
#[derive(Clone, Copy, PartialEq, Eq, Debug)]
pub struct Places {
    pub short: Option<ShortPlace>,
    // the registers of the halves
    pub high: Option<u16>,
    pub low: Option<u16>,
}

impl Places {
    pub const NOWHERE: Places = Places {
        short: None,
        high: None,
        low: None,
    };

    // The place that a row gives to a part of a counter.
    pub(crate) fn of(part: Part, row: &FittingRow) -> Places
        ensures { result ≡ part_place row.now.listed part }
    {
        let register = row.listed.register;
        match part {
            Part::Short => {
                let span = row.span();
                let place = ShortPlace {
                    register,
                    low: span.low,
                    width: span.width(),
                };
                Places {
                    short: Some(place),
                    ..Places::NOWHERE
                }
            }
            Part::High => Places {
                high: Some(register),
                ..Places::NOWHERE
            },
            Part::Low => Places {
                low: Some(register),
                ..Places::NOWHERE
            },
        }
    }

    // One part more is one too many.
    pub(crate) fn is_taken(self, part: Part) -> bool
        ensures { result ≡ part_taken self part }
    {
        match part {
            Part::Short => self.short.is_some() || self.high.is_some() || self.low.is_some(),
            Part::High => self.short.is_some() || self.high.is_some(),
            Part::Low => self.short.is_some() || self.low.is_some(),
        }
    }

    // The part is a half, and the other half is nowhere.
    pub(crate) fn lacks_partner(self, part: Part) -> bool
        ensures { result ≡ lacks_partner self part }
    {
        match part {
            Part::Short => false,
            Part::High => self.low.is_none(),
            Part::Low => self.high.is_none(),
        }
    }

    // The places of both; of one sort, the first.
    pub(crate) fn joined(self, more: Places) -> Places
        ensures { result ≡ joined self more }
    {
        Places {
            short: self.short.or(more.short),
            high: self.high.or(more.high),
            low: self.low.or(more.low),
        }
    }
}

#[derive(Clone, Copy, PartialEq, Eq, Debug)]
pub struct CounterSlot {
    pub places: Places,
    pub counter: Counter,
}

impl CounterSlot {
    // A counter that no row names.
    pub const EMPTY: CounterSlot = CounterSlot {
        places: Places::NOWHERE,
        counter: Counter::ZERO,
    };
}

// The slot of a counter's number; it is empty for one that is none of the table's.
pub fn slot_of(slots: &[CounterSlot], number: u16) -> CounterSlot
    ensures { result ≡ slice_index_or slots.now number empty_slot }
{
    slots
        .get(usize::from(number))
        .copied()
        .unwrap_or(CounterSlot::EMPTY)
}
