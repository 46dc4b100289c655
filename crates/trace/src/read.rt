// All the calls that the records of an input spell.
ghost use Rattle.std.specs.Prelude.{◌≡◌, IfOk};
ghost use Rattle.trace.specs.Traces.{reading_of};

use call::call::Call;
use std::alloc::{AllocError, Global};
use trace_format::record::{Record, decode};
use trace_format::refusal::TraceRefusal;

#[derive(Drop)]
pub struct Calls {
    pub calls: Vec<Call>,
    // why the records end before the input does
    pub stop: Option<TraceRefusal>,
}

pub fn read_calls(heap: Global, input: &[u8]) -> Result<Calls, AllocError>
    ensures { IfOk result (λ read. (read.calls.items ≡ (reading_of input.now).calls) × (read.stop ≡ (reading_of input.now).stop)) }
{
    let mut calls = Vec::new(heap);
    let mut rest = input;
    let stop = loop {
        match decode(rest) {
            Ok(Some(Record { call, rest: more })) => {
                calls.push(call)?;
                rest = more;
            }
            Ok(None) => break None,
            Err(refusal) => break Some(refusal),
        }
    };
    Ok(Calls { calls, stop })
}
