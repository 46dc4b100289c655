// A row of the table with the state of its bits: what it shows, and what each call does to it.
ghost use Rattle.std.specs.Prelude.{◌≡◌};
ghost use Rattle.table_mmd.specs.Changes.{finish_bit, move_line, new_entry, relatch, relatched_state, reset_row, with_state, write_row};
ghost use Rattle.table_mmd.specs.Entries.{HasBits, ShowsValue, row_shows, shown_at};

use crate::live::Live;
use crate::span::{put, taken};
use bits::{high_half, low_half, sixteen};
use rows::fitting::FittingRow;
use rows::row::Content;

#[derive(Clone, Copy, PartialEq, Eq, Debug)]
pub struct Entry {
    pub row: FittingRow,
    // the bits of the span, from its lowest at place 0; places past the span mean nothing
    pub state: u16,
}

impl Entry {
    // A row to which nothing has happened: its line is down.
    pub fn new(row: FittingRow) -> Entry
        ensures { result ≡ new_entry row }
    {
        let state = match row.content {
            Content::Setting(default) => default,
            _ => 0,
        };
        Entry { row, state }
    }

    fn with_state(self, state: u16) -> Entry
        ensures { result ≡ with_state self state }
    {
        Entry { state, ..self }
    }

    // What the row shows, from its lowest bit at place 0.
    #[tactic(auto, using(bits::proofs::Bits::bit_sixteen, bits::proofs::Bits::bit_low, bits::proofs::Bits::bit_high))]
    fn value(&self, live: &Live) -> u16
        ensures { ShowsValue (shown_at live.now.lines live.now.slots self.now.row.content self.now.state) result }
    {
        match self.row.content {
            Content::Fixed(value) => value,
            Content::Follower(line) => sixteen(live.is_up(line)),
            Content::LatchingHigh(_)
            | Content::LatchingLow(_)
            | Content::Setting(_)
            | Content::SelfClearing => self.state,
            Content::ShortCounter(number) => low_half(live.counter(number).value),
            Content::HighHalf(number) => high_half(live.counter(number).value),
            Content::LowHalf(number) => low_half(live.counter(number).held),
        }
    }

    // What the row shows of a register, in its span, and zeros beside it; zero for another register.
    #[tactic(auto, using(bits::proofs::Bits::bit_zero))]
    pub fn shown(&self, register: u16, live: &Live) -> u16
        ensures { HasBits (row_shows live.now.lines live.now.slots register self.now) result }
    {
        if self.row.listed.register != register {
            return 0;
        }
        put(self.row.span(), self.value(live))
    }

    // A latch takes the state of its line.
    fn relatched(self, live: &Live) -> Entry
        ensures { result ≡ with_state self (relatched_state live.now.lines self.row.content self.state) }
    {
        match self.row.content {
            Content::LatchingHigh(line) | Content::LatchingLow(line) => {
                self.with_state(sixteen(live.is_up(line)))
            }
            _ => self,
        }
    }

    // After a read of a register.
    pub fn read(self, register: u16, live: &Live) -> Entry
        ensures { result ≡ relatch live.now.lines register self }
    {
        if self.row.listed.register != register {
            return self;
        }
        self.relatched(live)
    }

    // After a write: the settings and self-clearing bits of the register take the word.
    pub fn written(self, register: u16, word: u16) -> Entry
        ensures { result ≡ write_row register word self }
    {
        if self.row.listed.register != register {
            return self;
        }
        let state = taken(self.row.span(), word);
        match self.row.content {
            Content::Setting(_) => self.with_state(state),
            Content::SelfClearing => self.with_state(state | self.state),
            _ => self,
        }
    }

    // After a line has gone up or down.
    pub fn moved(self, number: u8, up: bool) -> Entry
        ensures { result ≡ move_line number up self }
    {
        let number = u16::from(number);
        match self.row.content {
            Content::LatchingHigh(line) if line == number && up => self.with_state(sixteen(true)),
            Content::LatchingLow(line) if line == number && !up => self.with_state(sixteen(false)),
            _ => self,
        }
    }

    // After a self-clearing bit is cleared at a register and bit.
    pub fn finished(self, register: u16, bit: u8) -> Entry
        ensures { result ≡ finish_bit register bit self }
    {
        if !self.row.listed.covers(register, bit) {
            return self;
        }
        match self.row.content {
            Content::SelfClearing => self.with_state(0),
            _ => self,
        }
    }

    pub fn reset(self, live: &Live) -> Entry
        ensures { result ≡ reset_row live.now.lines self }
    {
        Entry::new(self.row).relatched(live)
    }
}
