// A part of a trace, as it comes in: its records are worked as far as they are there whole.
ghost use Rattle.std.specs.Prelude.{◌≡◌, ◌+◌, ◌-◌, ◌≤◌, true, not, ◌&&◌, ◌||◌, length, IfSome, MatchOption, nat_le, nat_lt};
ghost use Rattle.station.specs.Stations.{state_of};
ghost use Rattle.trace.specs.Parts.{WorkedPart};
ghost use Rattle.trace.specs.Traces.{reading_of, spelled};

use crate::step::{Progress, step};
use bank::bank::Bank;
use station::station::Station;
use trace_format::line::LINE_MAX;

// The length of the longest record: a part leaves less than that for the next one, if its lines have room.
pub const RECORD_MAX: usize = 7;

#[derive(Clone, Copy, PartialEq, Eq, Debug)]
pub struct Part<'a> {
    // how much of the input was worked; of a trace that is over, up to the record that stopped it or to its end
    pub taken: usize,
    // how much of the buffer was written
    pub written: usize,
    // what is left of the input; none once the trace is over: it has stopped, or its input is at its end
    pub rest: Option<&'a [u8]>,
}

// The next record is there whole, or nothing comes after it.
fn is_whole(rest: &[u8], last: bool) -> bool
    ensures { result ≡ (last || nat_le 7 (length rest.now)) }
{
    last || rest.len() >= RECORD_MAX
}

// Works records until the input, the buffer or the trace is at its end. The last part has nothing after it.
pub fn replay_part<'a, B: Bank>(
    station: &mut Station<B>,
    input: &'a [u8],
    last: bool,
    lines: &mut [u8],
) -> Part<'a>
    ensures within { (result.taken ≤ length input.now) × IfSome result.rest (λ rest. length rest.now ≤ length input.now) × (result.written ≤ length lines.new) }
    // what was worked ends where the rest begins; of a trace that is over, behind the records of all its calls
    ensures taken { MatchOption result.rest (result.taken ≡ length (spelled (reading_of input.now).calls)) (λ rest. result.taken ≡ length input.now - length rest.now) }
    // a record that is there whole is left only where some line would not fit
    ensures as_far_as_it_goes { IfSome result.rest (λ rest. (nat_lt (length rest.now) 7 && not last || nat_lt (length lines.new) (result.written + 11)) ≡ true) }
    ensures worked { WorkedPart (state_of B.Bank.slots station.old) input.now last result (state_of B.Bank.slots station.new) lines.new }
{
    let mut rest = input;
    let mut written = 0;
    while is_whole(rest, last) {
        let Ok(progress) = step(station, rest, &mut lines[written..]) else {
            // some line would not fit what is left of the buffer
            break;
        };
        match progress {
            Progress::Answered { length, rest: more } => {
                written += length;
                rest = more;
            }
            Progress::Stopped { length } => {
                return Part {
                    taken: input.len() - rest.len(),
                    written: written + length,
                    rest: None,
                };
            }
            Progress::End => {
                return Part {
                    taken: input.len() - rest.len(),
                    written,
                    rest: None,
                };
            }
        }
    }
    Part {
        taken: input.len() - rest.len(),
        written,
        rest: Some(rest),
    }
}
