// Setting a station up.
ghost use Rattle.std.specs.Prelude.{◌≡◌, map, true, Ok, IfOk, IfErr};
ghost use Rattle.watch_list.specs.Checks.{check_of};
ghost use Rattle.watch_list.specs.Watches.{new_watched};
ghost use Rattle.station.specs.Named.{all_named};
ghost use Rattle.station.specs.SetUps.{RefusedFor, SetsUp};

use crate::refused::{SetUpRefused, Why, with_bank};
use crate::station::Station;
use bank::bank::Bank;
use bus::bus::Bus;
use std::alloc::Global;
use watch_list::check::check;
use watch_list::entry::Entry;
use watch_list::watch::Watched;
use watch_list::watched::new_watch;

impl<B: Bank> Station<B> {
    // A station over a bank and a watch list, with no frame sent and nobody owed anything. No call allocates after this.
    pub fn new(heap: Global, bank: B, entries: &[Entry]) -> Result<Station<B>, SetUpRefused<B>>
        ensures { SetsUp B.Bank.slots bank entries.now result }
    {
        let (bank, watched) = with_bank(bank, listed(heap, entries))?;
        Ok(Station::over(bank, watched))
    }

    // A station over a bank and the entries of a list, with no frame sent.
    pub(crate) fn over(bank: B, watched: Vec<Watched>) -> Station<B>
        requires { all_named watched.items ≡ true }
        ensures bank { result.bus.bank ≡ bank }
        ensures frames { result.bus.frames ≡ 0 }
        ensures watched { result.watched ≡ watched }
    {
        Station {
            bus: Bus::new(bank),
            watched,
        }
    }
}

// The entries of a list that passes its check, with nobody owed anything yet.
pub(crate) fn listed(heap: Global, entries: &[Entry]) -> Result<Vec<Watched>, Why>
    ensures passed { IfOk result (λ v. check_of entries.now ≡ Ok tt) }
    ensures watched { IfOk result (λ v. v.items ≡ map new_watched entries.now) }
    ensures named { IfOk result (λ v. all_named v.items ≡ true) }
    ensures refused { IfErr result (RefusedFor entries.now) }
{
    check(entries)?;
    Ok(new_watch(heap, entries)?)
}
