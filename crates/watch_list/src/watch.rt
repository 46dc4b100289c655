// An entry that is watched: what each of the eight watchers is still owed of it.
ghost use Rattle.std.specs.Prelude.{◌≡◌, replicate, slice_index_or};
ghost use Rattle.watch_list.specs.Watches.{emptied, fed};

use crate::entry::{CountEntry, LatchEntry};
use joining::count::CountWord;
use joining::joining::Joining;
use joining::latch::LatchWord;
use joining::spread::spread;

pub const WATCHERS: usize = 8;

#[derive(Drop)]
pub struct Watch<E, J> {
    pub entry: E,
    // by watcher
    pub words: [J; 8],
}

#[derive(Drop)]
pub enum Watched {
    Latch(Watch<LatchEntry, LatchWord>),
    Count(Watch<CountEntry, CountWord>),
}

impl<E, J: Joining> Watch<E, J> {
    pub fn new(entry: E) -> Watch<E, J>
        ensures { result ≡ record { entry = entry; words = replicate 8 J.Joining.EMPTY } }
    {
        Watch {
            entry,
            words: [J::EMPTY; WATCHERS],
        }
    }

    // The watcher's word, which is then empty. A watcher above 7 has none, and is given an empty one.
    pub fn look(&mut self, watcher: u8) -> J
        ensures word { result ≡ slice_index_or self.old.words watcher J.Joining.EMPTY }
        ensures after { self.new ≡ emptied J.Joining.EMPTY watcher self.old }
    {
        let watcher = usize::from(watcher);
        let Some(word) = self.words.get(watcher).copied() else {
            return J::EMPTY;
        };
        self.words[watcher] = J::EMPTY;
        word
    }

    // Every watcher's word takes a reading in.
    pub fn take_in(&mut self, reading: J::Reading)
        ensures { self.new ≡ fed J.Joining.joined (J.Joining.word reading) self.old }
    {
        spread(&mut self.words, reading);
    }
}
