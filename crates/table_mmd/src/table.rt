// An MMD that is filled from rows.
ghost use Rattle.table_mmd.specs.Tables.{Laid};

use crate::entry::Entry;
use crate::live::Live;

#[derive(Drop)]
pub struct TableMmd {
    pub(crate) entries: Vec<Entry>,
    pub(crate) live: Live,
    ghost laid: { ∥ Laid entries.items live.lines live.slots ∥₁ },
}
