// An entry of either sort that is watched: it takes readings in and tells a watcher what it is owed.
ghost use Rattle.std.specs.Prelude.{◌≡◌, map, IfOk};
ghost use Rattle.watch_list.specs.Watches.{after_look, entry_of, new_watched, taken_in, told};

use crate::entry::Entry;
use crate::watch::{Watch, Watched};
use std::alloc::{AllocError, Global};

// what a one in the high half counts
const HIGH_WEIGHT: u32 = 65536;

impl Watched {
    // Nobody is owed anything yet.
    pub fn new(entry: Entry) -> Watched
        ensures { result ≡ new_watched entry }
    {
        match entry {
            Entry::Latch(entry) => Watched::Latch(Watch::new(entry)),
            Entry::Count(entry) => Watched::Count(Watch::new(entry)),
        }
    }

    pub fn entry(&self) -> Entry
        ensures { result ≡ entry_of self.now }
    {
        match self {
            Watched::Latch(watch) => Entry::Latch(watch.entry),
            Watched::Count(watch) => Entry::Count(watch.entry),
        }
    }

    // Every watcher's word takes a reading in: of the entry's register, or of its high half with the low one.
    #[tactic(auto, unfolding(crate::specs::Watches::taken_in))]
    pub fn take_in(&mut self, word: u16, low: u16)
        ensures { self.new ≡ taken_in word low self.old }
    {
        match self {
            Watched::Latch(watch) => watch.take_in(word),
            Watched::Count(watch) => {
                watch.take_in(HIGH_WEIGHT * u32::from(word) + u32::from(low))
            }
        }
    }

    // What the watcher is owed, which is then nothing. A watcher above 7 is told what an empty word tells.
    #[tactic(auto, unfolding(crate::specs::Watches::told, crate::specs::Watches::after_look))]
    pub fn look(&mut self, watcher: u8) -> u32
        ensures word { result ≡ told watcher self.old }
        ensures after { self.new ≡ after_look watcher self.old }
    {
        match self {
            Watched::Latch(watch) => {
                let word = watch.look(watcher);
                u32::from(watch.entry.told(word))
            }
            Watched::Count(watch) => watch.look(watcher).sum,
        }
    }
}

// All entries, with nobody owed anything yet. Memory is reserved once.
pub fn new_watch(heap: Global, entries: &[Entry]) -> Result<Vec<Watched>, AllocError>
    ensures { IfOk result (λ v. v.items ≡ map new_watched entries.now) }
{
    entries
        .iter()
        .map(|entry| Watched::new(*entry))
        .collect(heap)
}
