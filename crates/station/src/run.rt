// Working a list of calls.
ghost use Rattle.station.specs.Runs.{KeepsPromise, Runs};

use crate::ran::Run;
use crate::refused::{SetUpRefused, Why, with_bank};
use crate::set_up::listed;
use crate::station::Station;
use bank::bank::Bank;
use call::call::Call;
use std::alloc::Global;
use watch_list::entry::Entry;

// Sets a station up and works every call in order. All memory is reserved before the first call.
pub fn run<B: Bank>(
    heap: Global,
    bank: B,
    entries: &[Entry],
    calls: &[Call],
) -> Result<Run<B>, SetUpRefused<B>>
    ensures ran { Runs B.Bank.slots bank entries.now calls.now result }
    ensures promise { KeepsPromise B.Bank.slots bank entries.now calls.now result }
{
    let (bank, watched) = with_bank(bank, listed(heap, entries))?;
    let answers = Vec::with_capacity(heap, calls.len()).map_err(Why::from);
    let (bank, mut answers) = with_bank(bank, answers)?;
    let mut station = Station::over(bank, watched);
    for call in calls {
        answers.push_reserved(station.call(*call));
    }
    Ok(Run { station, answers })
}
