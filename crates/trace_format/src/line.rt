// Answer lines: what a record of a trace is answered by, put into a buffer as text.
ghost use Rattle.std.specs.Prelude.{◌≡◌, ◌-◌, ◌<◌, ◌≤◌, ◌∷◌, ◌++◌, length, drop};
ghost use Rattle.std.specs.Char.{digit_char};
ghost use Rattle.trace_format.specs.Lines.{buffer_after, digits, line_of, line_result, newline};
ghost use Rattle.trace_format.specs.Telling.{Telling};

use crate::refusal::{BufferRefusal, TraceRefusal};
use call::answer::Answer;

// The length of the longest line.
pub const LINE_MAX: usize = 11;

#[derive(Clone, Copy, PartialEq, Eq, Debug)]
pub enum Line {
    // a record's call was made, and this came back
    Answer(Answer),
    // there is no such record, and the trace ends
    Stop(TraceRefusal),
}

// By hand and not by write!: a line took 70 ns and not 1, and the library does not say which bytes a write into a lent
// slice leaves.

// Puts a line at the start of a buffer that has room for every line; gives the line's length.
pub fn write_line(line: Line, buffer: &mut [u8]) -> Result<usize, BufferRefusal>
    ensures result { result ≡ line_result line buffer.old }
    ensures after { buffer.new ≡ buffer_after line buffer.old }
    ensures laws { Telling }
{
    if buffer.len() < LINE_MAX {
        return Err(BufferRefusal::Short);
    }
    Ok(put_line(line, buffer))
}

fn put_line(line: Line, buffer: &mut [u8]) -> usize
    requires { 11 ≤ length buffer.old }
    ensures result { result ≡ length (line_of line) }
    ensures after { buffer.new ≡ line_of line ++ drop (length (line_of line)) buffer.old }
{
    match line {
        Line::Answer(Answer::Data(word)) => put(
            &number_line::<7>(b'R', 16, u32::from(word)),
            buffer,
        ),
        Line::Answer(Answer::Told(word)) => put(&number_line::<11>(b'T', 16, word), buffer),
        Line::Answer(Answer::Done) => put(b"V\n", buffer),
        Line::Answer(Answer::Refused(refusal)) => put(
            &number_line::<5>(b'E', 10, u32::from(refusal.number())),
            buffer,
        ),
        Line::Stop(refusal) => put(
            &number_line::<5>(b'X', 10, u32::from(refusal.number())),
            buffer,
        ),
    }
}

// Puts a text at the start of a buffer; gives its length.
fn put(text: &[u8], buffer: &mut [u8]) -> usize
    requires { length text.now ≤ length buffer.old }
    ensures result { result ≡ length text.now }
    ensures after { buffer.new ≡ text.now ++ drop (length text.now) buffer.old }
{
    let length = text.len();
    buffer[0..length].copy_from_slice(text);
    length
}

// A line of a letter and a number's last digits in a base, as many as there is room for.
fn number_line<const N: usize>(letter: u8, base: u32, number: u32) -> [u8; N]
    requires long { 3 ≤ N }
    requires base { (0 < base) × (base ≤ 16) }
    ensures { result ≡ letter ∷ 32 ∷ (digits base (N - 3) number ++ newline) }
{
    let mut line = [b' '; N];
    line[0] = letter;
    line[N - 1] = b'\n';
    let mut rest = number;
    for place in 0..N - 3 {
        line[N - 2 - place] = digit_char((rest % base) as u8);
        rest /= base;
    }
    line
}

// The character of a digit: 0 to 9, then a to f.
fn digit_char(digit: u8) -> u8
    requires { digit < 16 }
    ensures { result ≡ digit_char digit }
{
    if digit < 10 {
        b'0' + digit
    } else {
        b'a' + (digit - 10)
    }
}
