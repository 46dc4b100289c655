// The text that answers a trace: a line for each answer, and one for what stops the records.
ghost use Rattle.std.specs.Prelude.{◌≡◌, ◌+◌, ◌*◌, ◌≤◌, ◌++◌, length, vec_len, vec_capacity};
ghost use Rattle.trace_format.specs.Lines.{line_of};
ghost use Rattle.trace.specs.Traces.{lines_of, stop_text, text_of};

use call::answer::Answer;
use trace_format::line::{LINE_MAX, Line, write_line};
use trace_format::refusal::TraceRefusal;

// A line more, for which there is room. It goes through a buffer, since write_line takes a lent slice by a rule of the
// project.
fn append(text: &mut Vec<u8>, line: Line)
    requires { vec_len text.old + 11 ≤ vec_capacity text.old }
    ensures items { text.new.items ≡ text.old.items ++ line_of line }
    ensures len { vec_len text.new ≤ vec_len text.old + 11 }
    ensures capacity { vec_capacity text.old ≤ vec_capacity text.new }
{
    let mut buffer = [0u8; LINE_MAX];
    if let Ok(length) = write_line(line, &mut buffer) {
        let _ = text.extend_from_slice(&buffer[0..length]);
    }
}

// The whole text, for which there is room.
pub(crate) fn write_text(text: &mut Vec<u8>, answers: &[Answer], stop: Option<TraceRefusal>)
    requires { vec_len text.old + 11 * length answers.now + 11 ≤ vec_capacity text.old }
    ensures { text.new.items ≡ text.old.items ++ text_of answers.now stop }
{
    for answer in answers {
        append(text, Line::Answer(*answer));
    }
    if let Some(refusal) = stop {
        append(text, Line::Stop(refusal));
    }
}
