// The interface of every kind of MMD: what it means, and what each call answers and changes.
ghost use Rattle.std.specs.Prelude.{◌≡◌, is_ok, if◌then◌else◌};
ghost use Rattle.mmd.specs.Events.{after_read, after_write, after_line, after_count, after_finish, after_reset};
ghost use Rattle.mmd.specs.Invariant.{Keeps};
ghost use Rattle.mmd.specs.Meaning.{Meaning, read_word};
ghost use Rattle.mmd.specs.Refusals.{count_answer, finish_answer};

use crate::refusal::MmdRefusal;

pub trait Mmd {
    ghost meaning: { Self → Meaning };

    // The register's 16 bits. Its latches then equal their lines, and its counters are cleared.
    fn read(&mut self, register: u16) -> u16
        ensures word { result ≡ read_word (meaning self.old) register }
        ensures after { meaning self.new ≡ after_read (meaning self.old) register };

    fn write(&mut self, register: u16, word: u16)
        ensures { meaning self.new ≡ after_write (meaning self.old) register word };

    // Sets a line up or down; there is none above 31.
    fn line(&mut self, number: u8, up: bool)
        ensures { meaning self.new ≡ after_line (meaning self.old) number up };

    fn count(&mut self, counter: u8, amount: u16) -> Result<(), MmdRefusal>
        ensures answer { result ≡ count_answer (meaning self.old) counter }
        ensures after { meaning self.new ≡ (if is_ok result then after_count (meaning self.old) counter amount else meaning self.old) };

    // Ends what a self-clearing bit has started.
    fn finish(&mut self, register: u16, bit: u8) -> Result<(), MmdRefusal>
        ensures answer { result ≡ finish_answer (meaning self.old) register bit }
        ensures after { meaning self.new ≡ (if is_ok result then after_finish (meaning self.old) register bit else meaning self.old) };

    fn reset(&mut self)
        ensures { meaning self.new ≡ after_reset (meaning self.old) };

    ghost keeps_invariant: { (m : Self) → Keeps (meaning m) };
}
