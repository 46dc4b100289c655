// The walks over the rows of a table.
ghost use Rattle.std.specs.Prelude.{◌≡◌, map};
ghost use Rattle.mmd.specs.Cells.{is_self_clearing};
ghost use Rattle.table_mmd.specs.Changes.{relatch};
ghost use Rattle.table_mmd.specs.Entries.{HasBits, any_shows, rows_of};
ghost use Rattle.std.specs.List.{find};
ghost use Rattle.std.specs.Option.{option_map};
ghost use Rattle.rows.specs.Rows.{cell_of, covers};

use crate::entry::Entry;
use crate::live::Live;
use rows::row::Content;

// What the rows show of a register; its latches then equal their lines. One walk of its own, since it gathers a word too.
pub fn read_all(entries: &mut [Entry], register: u16, live: &Live) -> u16
    ensures shown { HasBits (any_shows live.now.lines live.now.slots register entries.old) result }
    ensures after { entries.new ≡ map (relatch live.now.lines register) entries.old }
{
    let mut word = 0;
    for entry in entries.iter_mut() {
        // Tested here too, so that a row of another register is not written back.
        if entry.row.listed.register == register {
            word |= entry.shown(register, live);
            *entry = entry.read(register, live);
        }
    }
    word
}

// The row that covers a bit.
fn row_at(entries: &[Entry], register: u16, bit: u8) -> Option<&Entry>
    ensures { option_map (λ e. e.now) result ≡ find (λ e. covers e.row.listed register bit) entries.now }
{
    entries
        .iter()
        .find(|entry| entry.row.listed.covers(register, bit))
}

// Whether the bit is self-clearing.
pub fn is_self_clearing(entries: &[Entry], register: u16, bit: u8) -> bool
    ensures { result ≡ is_self_clearing (cell_of (rows_of entries.now) register bit) }
{
    match row_at(entries, register, bit) {
        Some(entry) => matches!(entry.row.content, Content::SelfClearing),
        None => false,
    }
}
