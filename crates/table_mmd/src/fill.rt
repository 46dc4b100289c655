// Filling a table from rows.
ghost use Rattle.std.specs.Prelude.{◌≡◌, IfOk};
ghost use Rattle.std.specs.List.{AllByRecursion};
ghost use Rattle.table_mmd.specs.Fills.{Filled, PassesExactly, StartsAs};
ghost use Rattle.rows.specs.Layouts.{WellFormed};
ghost use Rattle.table_mmd.specs.declared.fill.FillRefusal.TheVariants.{Faulty, Memory};

use crate::entry::Entry;
use crate::live::Live;
use crate::table::TableMmd;
use fault_at::FaultAt;
use rows::check::check;
use rows::fault::TableFault;
use rows::fitting::FittingRow;
use rows::row::Row;
use std::alloc::{AllocError, Global};
use thiserror::Error;

#[derive(Clone, Copy, PartialEq, Eq, Debug, Error)]
pub enum FillRefusal {
    #[error("{0}")]
    Faulty(FaultAt<TableFault>),
    #[error("no memory for the rows")]
    Memory,
}

impl From<FaultAt<TableFault>> for FillRefusal {
    ghost from_gives = { λ f r. r ≡ Faulty f };

    fn from(fault: FaultAt<TableFault>) -> FillRefusal {
        FillRefusal::Faulty(fault)
    }
}

impl From<AllocError> for FillRefusal {
    ghost from_gives = { λ _ r. r ≡ Memory };

    fn from(_error: AllocError) -> FillRefusal {
        FillRefusal::Memory
    }
}

impl TableMmd {
    // An MMD of exactly these rows, with its lines down and settled.
    #[tactic(auto, using(rows::proofs::Formed::passes_exactly, rows::proofs::Formed::passing_well_formed))]
    pub fn fill(heap: Global, rows: &[Row]) -> Result<TableMmd, FillRefusal>
        ensures filled { Filled rows.now result }
        ensures passes_exactly { PassesExactly rows.now }
    {
        let slots = check(rows)?;
        let entries = new_entries(heap, rows)?;
        let live = Live { lines: 0, slots };
        Ok(TableMmd { entries, live })
    }
}

// An entry for each row; each has passed the check, so none is tested again.
fn new_entries(heap: Global, rows: &[Row]) -> Result<Vec<Entry>, AllocError>
    requires { AllByRecursion WellFormed rows.now }
    ensures { IfOk result (λ v. StartsAs rows.now v.items) }
{
    // A loop, not map and collect: that each row fits is then read off the loop, and a closure would have to be shown it.
    let mut entries = Vec::with_capacity(heap, rows.len())?;
    for row in rows {
        let content = row.content().unwrap();
        entries.push_reserved(Entry::new(FittingRow {
            listed: *row,
            content,
        }));
    }
    Ok(entries)
}
