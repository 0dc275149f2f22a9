//! A memory without caches.

ghost use Rattle.std.specs.Prelude.{◌≡◌, length};

use crate::port::Port;
use cdc_prog::Mark;

/// Words of memory, one after another.
#[derive(Drop)]
pub struct Words {
    pub cells: Vec<i64>,
}

impl Port for Words {
    ghost use Rattle.cdc_prog.specs.Data.{put};
    ghost use Rattle.cdc_task.specs.Memory.{memory_of};

    ghost words = { λ memory. length memory.cells.items };

    ghost loads = { λ old word mark value new. (value ≡ memory_of old word) × (new ≡ old) };

    ghost stores = { λ old word value new. memory_of new ≡ put (memory_of old) word value };

    fn load(&mut self, word: u32, _mark: Mark) -> i64 {
        self.cells[word as usize]
    }

    fn store(&mut self, word: u32, value: i64) {
        self.cells[word as usize] = value;
    }
}
