// The card's bank, a table MMD at port 1, device 1, and the FEC MMD at port 1, device 3; and what is watched of them.
ghost use Rattle.card.specs.Card.{Covered, IsCardBank};

use bank::pair::Pair;
use bank::slot::Slot;
use fec_mmd::fec::FecMmd;
use frame::address::MmdAddress;
use rows::row::Row;
use std::alloc::Global;
use table_mmd::fill::FillRefusal;
use table_mmd::table::TableMmd;
use watch_list::entry::{CountEntry, Entry, LatchEntry};

pub type CardBank = Pair<Slot<TableMmd>, Slot<FecMmd>>;

const TABLE: MmdAddress = MmdAddress { port: 1, device: 1 };

const FEC: MmdAddress = MmdAddress { port: 1, device: 3 };

// 1.8.11 latches line 1 high, and 1.8.15:14 is fixed at 2.
const ROWS: [Row; 2] = [
    Row {
        register: 8,
        high: 11,
        low: 11,
        kind: 3,
        number: 1,
    },
    Row {
        register: 8,
        high: 15,
        low: 14,
        kind: 1,
        number: 2,
    },
];

// Entry 0 watches the latch 1.8.11, entry 1 the corrected codewords, 3.77 and 3.76.
pub const WATCH_LIST: [Entry; 2] = [
    Entry::Latch(LatchEntry {
        address: TABLE,
        register: 8,
        high_mask: 0x0800,
        low_mask: 0,
    }),
    Entry::Count(CountEntry {
        address: FEC,
        high: 77,
        low: 76,
    }),
];

// The card's bank, to which nothing has happened; it fails only for want of memory.
pub fn card_bank(heap: Global) -> Result<CardBank, FillRefusal>
    ensures bank { IsCardBank result }
    ensures covered { Covered }
{
    let table = TableMmd::fill(heap, &ROWS)?;
    let left = Slot::new(TABLE, table);
    let right = Slot::new(FEC, FecMmd::new());
    Ok(Pair { left, right })
}
