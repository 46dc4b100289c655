// One reading is taken in by every watcher's word, whatever the joining.
ghost use Rattle.std.specs.Prelude.{◌≡◌, map};

use crate::joining::Joining;

pub fn spread<J: Joining>(words: &mut [J], reading: J::Reading)
    ensures { words.new ≡ map (λ kept. J.Joining.joined kept (J.Joining.word reading)) words.old }
{
    let word = J::word_of(reading);
    for kept in words.iter_mut() {
        *kept = kept.join(word);
    }
}
