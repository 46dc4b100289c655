// A whole trace, replayed on a station of its own.
ghost use Rattle.std.specs.Prelude.{◌≡◌, ◌+◌, ◌*◌, ◌≤◌, [], IfOk, vec_len, vec_capacity};
ghost use Rattle.trace.specs.Replays.{KeepsPromise, Replays};
ghost use Rattle.trace.specs.Traces.{reading_of};

use crate::read::{Calls, read_calls};
use crate::replayed::Replayed;
use crate::text::write_text;
use bank::bank::Bank;
use station::ran::Run;
use station::refused::{SetUpRefused, Why, with_bank};
use station::run::run;
use std::alloc::{AllocError, Global};
use trace_format::line::LINE_MAX;
use watch_list::entry::Entry;

// Sets a station up and replays every record. All memory is reserved before the first call.
pub fn replay<B: Bank>(
    heap: Global,
    bank: B,
    entries: &[Entry],
    input: &[u8],
) -> Result<Replayed<B>, SetUpRefused<B>>
    ensures replays { Replays B.Bank.slots bank entries.now input.now result }
    ensures promise { KeepsPromise B.Bank.slots bank entries.now input.now result }
{
    let reserved = reserve(heap, input).map_err(Why::from);
    let (bank, (Calls { calls, stop }, mut text)) = with_bank(bank, reserved)?;
    let Run { station, answers } = run(heap, bank, entries, calls.as_slice())?;
    write_text(&mut text, answers.as_slice(), stop);
    Ok(Replayed { station, text })
}

// The calls of the input, and room for a line for each and one more.
fn reserve(heap: Global, input: &[u8]) -> Result<(Calls, Vec<u8>), AllocError>
    ensures calls { IfOk result (λ r. r.0.calls.items ≡ (reading_of input.now).calls) }
    ensures stop { IfOk result (λ r. r.0.stop ≡ (reading_of input.now).stop) }
    ensures text { IfOk result (λ r. r.1.items ≡ []) }
    ensures room { IfOk result (λ r. vec_len r.1 + 11 * vec_len r.0.calls + 11 ≤ vec_capacity r.1) }
{
    let read = read_calls(heap, input)?;
    // a product that saturates is more than can be reserved
    let bytes = LINE_MAX.saturating_mul(read.calls.len().saturating_add(1));
    let text = Vec::with_capacity(heap, bytes)?;
    Ok((read, text))
}
