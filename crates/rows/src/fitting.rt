// A row that fits: its kind is listed, its span suits the kind, and its number suits both.
ghost use Rattle.std.specs.Prelude.{◌≡◌, ◌+◌, ◌-◌, true, Some};
ghost use Rattle.rows.specs.Rows.{content_of, number_fits, number_suits, span_fits, span_suits};

use crate::fault::TableFault;
use crate::row::{Content, Row};
use crate::span::Span;

const LAST_LINE: u16 = 31;

const LAST_COUNTER: u16 = 15;

#[derive(Clone, Copy, PartialEq, Eq, Debug)]
pub struct FittingRow {
    pub listed: Row,
    pub content: Content,
    ghost right_content: { content_of listed ≡ Some content },
    ghost right_span: { span_fits listed ≡ true },
    ghost right_number: { number_fits listed ≡ true },
}

impl FittingRow {
    pub fn span(&self) -> Span
        ensures low { result.low ≡ self.now.listed.low }
        ensures high { result.high ≡ self.now.listed.high }
    {
        Span {
            low: self.listed.low,
            high: self.listed.high,
        }
    }
}

impl TryFrom<Row> for FittingRow {
    type Error = TableFault;

    ghost use Rattle.rows.specs.Fitting.{Fits};

    ghost try_from_gives = { Fits };

    // The row, or the first rule of its own that it breaks.
    fn try_from(row: Row) -> Result<FittingRow, TableFault> {
        let content = row.content().ok_or(TableFault::Kind)?;
        let span = Span::new(row.low, row.high).ok_or(TableFault::Span)?;
        if !span_suits(content, span) {
            return Err(TableFault::Span);
        }
        if !number_suits(content, row.number, span) {
            return Err(TableFault::Number);
        }
        Ok(FittingRow {
            listed: row,
            content,
        })
    }
}

// The span is one bit, or the whole register, where the kind asks for that.
fn span_suits(content: Content, span: Span) -> bool
    ensures { result ≡ span_suits span.low span.high content }
{
    match content {
        Content::Follower(_)
        | Content::LatchingHigh(_)
        | Content::LatchingLow(_)
        | Content::SelfClearing => span.is_one_bit(),
        Content::HighHalf(_) | Content::LowHalf(_) => span.is_whole_register(),
        Content::Fixed(_) | Content::Setting(_) | Content::ShortCounter(_) => true,
    }
}

// A value is no wider than the span, and a line or a counter is one that there is.
fn number_suits(content: Content, number: u16, span: Span) -> bool
    ensures { result ≡ number_suits (span.high + 1 - span.low) number content }
{
    match content {
        Content::Fixed(value) | Content::Setting(value) => u32::from(value) < 1 << span.width(),
        Content::Follower(line) | Content::LatchingHigh(line) | Content::LatchingLow(line) => {
            line <= LAST_LINE
        }
        Content::SelfClearing => number == 0,
        Content::ShortCounter(number) | Content::HighHalf(number) | Content::LowHalf(number) => {
            number <= LAST_COUNTER
        }
    }
}
