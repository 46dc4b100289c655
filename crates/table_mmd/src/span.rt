// Moving bits between a row's span and the low end of a word.
ghost use Rattle.std.specs.Prelude.{◌≡◌, ◌/◌, ◌^◌};
ghost use Rattle.rows.specs.Spans.{PutIntoSpan};

use rows::span::Span;

// A register word with a value in the span, cut to it, and zeros beside it.
pub fn put(span: Span, value: u16) -> u16
    ensures { PutIntoSpan span.low span.high value result }
{
    let below_top = 0xffff_u32 >> (15 - span.high);
    let from_low = 0xffff_u32 << span.low;
    (u32::from(value) << span.low & (below_top & from_low)) as u16
}

// What a register word has from the span's lowest bit on.
pub fn taken(span: Span, word: u16) -> u16
    ensures { result ≡ word / 2 ^ span.low }
{
    word >> span.low
}
