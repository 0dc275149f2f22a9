//! A memory side that is lent to a task, as the port of one processor.

ghost use Rattle.std.specs.Prelude.{◌≡◌, ◌<◌, ◌^◌, List as Items, ℕ};
ghost use Rattle.cdc_code.specs.Rows.{act};
ghost use Rattle.cdc_task.specs.Held.{frame_of};
ghost use Rattle.cdc_task.specs.Steps.{GoesOn, Stepped};
ghost use Rattle.cdc_epoch.specs.Side.{Stays, as_port};

use cdc_code::Code;
use cdc_fabric::Fabric;
use cdc_input::InputRecords;
use cdc_prog::Mark;
use cdc_task::{Port, StepEnd, Task};

// A memory side, for one processor.
#[derive(Drop)]
pub struct Lent<'a, F: Fabric> {
    pub side: &'a mut F,
    pub p: u32,
    ghost known: { p < F.procs side.now },
}

impl<'a, F: Fabric> Port for Lent<'a, F> {
    ghost words = { λ lent. F.words lent.side.now };

    ghost loads = { λ old word mark value new. F.loads old.side.now old.p word mark value new.side.now × Stays F.Fabric old.side.now new.side.now × (new.side.ghost_name ≡ old.side.ghost_name) × (new.p ≡ old.p) };

    ghost stores = { λ old word value new. F.stores old.side.now old.p word value new.side.now × Stays F.Fabric old.side.now new.side.now × (new.side.ghost_name ≡ old.side.ghost_name) × (new.p ≡ old.p) };

    #[inline(always)]
    fn load(&mut self, word: u32, mark: Mark) -> i64 {
        self.side.load(self.p, word, mark)
    }

    #[inline(always)]
    fn store(&mut self, word: u32, value: i64) {
        self.side.store(self.p, word, value);
    }
}

// One instruction of a task by processor `p`.
#[inline(always)]
pub(crate) fn step_on<F: Fabric>(
    side: &mut F,
    p: u32,
    task: &mut Task,
    code: &Code,
    records: &InputRecords,
) -> StepEnd
    requires proc { p < F.procs side.old }
    requires words { F.words side.old ≡ code.now.words }
    requires goes { (path : Items ℕ) × GoesOn code.now (frame_of path records.now.records task.old) }
    ensures stays { Stays F.Fabric side.old side.new }
    ensures step { (path : Items ℕ) → Stepped (as_port F.Fabric p) records.now.records (act code.now (frame_of path records.now.records task.old)) side.old result task.new side.new }
{
    let mut port = Lent { side, p };
    task.step(code, records, &mut port)
}
