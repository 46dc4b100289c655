// The check of a watch list: entry by entry from the first, each by the rules in their order.
ghost use Rattle.std.specs.Prelude.{◌≡◌, not, length, ◌==◌, bit_and, nat_lt};
ghost use Rattle.watch_list.specs.Checks.{check_of, clashes, entry_fault, is_taken, shares_register, well_formed, PassesExactly};

use crate::entry::{CountEntry, Entry, LatchEntry};
use crate::fault::ListFault;
use fault_at::FaultAt;

const MOST_ENTRIES: usize = 16;

// No bit is in both masks.
fn masks_apart(entry: &LatchEntry) -> bool
    ensures { result ≡ (bit_and entry.now.high_mask entry.now.low_mask == 0) }
{
    entry.high_mask & entry.low_mask == 0
}

fn halves_apart(entry: &CountEntry) -> bool
    ensures { result ≡ not (entry.now.high == entry.now.low) }
{
    entry.high != entry.low
}

fn well_formed(entry: &Entry) -> bool
    ensures { result ≡ well_formed entry.now }
{
    match entry {
        Entry::Latch(latch) => latch.address.is_addressable() && masks_apart(latch),
        Entry::Count(count) => count.address.is_addressable() && halves_apart(count),
    }
}

// One of the entry's registers is named by the other entry too.
fn shares_register(entry: &Entry, other: &Entry) -> bool
    ensures { result ≡ shares_register entry.now other.now }
{
    match entry {
        Entry::Latch(latch) => other.names(latch.register),
        Entry::Count(count) => other.names(count.high) || other.names(count.low),
    }
}

// Both are of one MMD and name one register.
fn clashes(entry: &Entry, other: &Entry) -> bool
    ensures { result ≡ clashes entry.now other.now }
{
    other.is_of(entry.address()) && shares_register(entry, other)
}

// An earlier entry of that MMD names one of the entry's registers.
fn is_taken(earlier: &[Entry], entry: &Entry) -> bool
    ensures { result ≡ is_taken earlier.now entry.now }
{
    earlier.iter().any(|other| clashes(entry, other))
}

// The first rule that an entry breaks, behind the earlier ones.
fn entry_fault(earlier: &[Entry], entry: &Entry) -> Option<ListFault>
    ensures { result ≡ entry_fault earlier.now entry.now }
{
    if !well_formed(entry) {
        Some(ListFault::Malformed)
    } else if is_taken(earlier, entry) {
        Some(ListFault::RegisterTaken)
    } else {
        None
    }
}

fn too_many(entries: &[Entry]) -> bool
    ensures { result ≡ nat_lt 16 (length entries.now) }
{
    entries.len() > MOST_ENTRIES
}

// Whether a watch list is in order, or what is wrong with it first.
pub fn check(entries: &[Entry]) -> Result<(), FaultAt<ListFault>>
    ensures answer { result ≡ check_of entries.now }
    ensures passes_exactly { PassesExactly entries.now }
{
    if too_many(entries) {
        return Err(FaultAt {
            fault: ListFault::TooManyEntries,
            place: MOST_ENTRIES,
        });
    }
    // by the index, which is the place of the fault and bounds the earlier entries
    for (place, entry) in entries.iter().enumerate() {
        if let Some(fault) = entry_fault(&entries[..place], entry) {
            return Err(FaultAt { fault, place });
        }
    }
    Ok(())
}
