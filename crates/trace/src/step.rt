// One step of a trace: the record at the front of the input is worked on the station, and its line is written.
ghost use Rattle.std.specs.Prelude.{◌≡◌};
ghost use Rattle.station.specs.Stations.{state_of};
ghost use Rattle.trace.specs.Steps.{buffer_after_step, outcomes, result_of_step, state_after_step};

use bank::bank::Bank;
use station::station::Station;
use trace_format::line::{LINE_MAX, Line, write_line};
use trace_format::record::{Record, decode};
use trace_format::refusal::BufferRefusal;

#[derive(Drop)]
pub enum Progress<'a> {
    // the line has this length, and this is the input behind the record
    Answered { length: usize, rest: &'a [u8] },
    // what follows is no record: the line has this length, and the trace ends
    Stopped { length: usize },
    // the input is at its end
    End,
}

pub fn step<'a, B: Bank>(
    station: &mut Station<B>,
    input: &'a [u8],
    buffer: &mut [u8],
) -> Result<Progress<'a>, BufferRefusal>
    ensures result { outcomes result ≡ result_of_step (state_of B.Bank.slots station.old) input.now buffer.old }
    ensures state { state_of B.Bank.slots station.new ≡ state_after_step (state_of B.Bank.slots station.old) input.now buffer.old }
    ensures buffer { buffer.new ≡ buffer_after_step (state_of B.Bank.slots station.old) input.now buffer.old }
{
    if buffer.len() < LINE_MAX {
        return Err(BufferRefusal::Short);
    }
    match decode(input) {
        Ok(Some(Record { call, rest })) => {
            let length = write_line(Line::Answer(station.call(call)), buffer)?;
            Ok(Progress::Answered { length, rest })
        }
        Ok(None) => Ok(Progress::End),
        Err(refusal) => {
            let length = write_line(Line::Stop(refusal), buffer)?;
            Ok(Progress::Stopped { length })
        }
    }
}
