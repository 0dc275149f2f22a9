//! What a task reads and writes.

ghost use Rattle.std.specs.Prelude.{◌≡◌, ◌<◌, ℕ, ℤ};
ghost use Rattle.cdc_prog.specs.declared.program.Mark.{Mark as ReadMark};

use cdc_prog::Mark;

/// Words of memory as a task sees them. Each call is a stated step.
pub trait Port {
    /// The number of words, which no call changes.
    ghost words: { Self → ℕ };

    /// A load: before, word, mark, answer, after.
    ghost loads: { Self → ℕ → ReadMark → ℤ → Self → Type 0 };

    /// A store: before, word, value, after.
    ghost stores: { Self → ℕ → ℤ → Self → Type 0 };

    /// The value of a word, below the number of words.
    fn load(&mut self, word: u32, mark: Mark) -> i64
        requires { word < words self.old }
        ensures words { words self.new ≡ words self.old }
        ensures step { loads self.old word mark result self.new };

    /// Gives a word, below the number of words, a new value.
    fn store(&mut self, word: u32, value: i64)
        requires { word < words self.old }
        ensures words { words self.new ≡ words self.old }
        ensures step { stores self.old word value self.new };
}
