//! Calls of units, and forks of iterations.

ghost use Rattle.std.specs.Prelude.{◌<◌, ◌^◌, ℕ};
ghost use Rattle.cdc_prog.specs.Input.{Input};
ghost use Rattle.cdc_code.specs.declared.instr.Instr.TheVariants.{Arg, Call, Return, Fork};
ghost use Rattle.cdc_task.specs.Steps.{FitsIn, EndsOn, Fits, Ends, FitsAt, EndsAt, does};

use crate::end::StepEnd;
use crate::loops::moved;
use crate::task::{Task, start_of};
use cdc_code::Code;
use cdc_prog::{Var, iterations};

impl Task {
    // Adds the object for which a variable stands to the arguments.
    #[inline(never)]
    pub(crate) fn pass(&mut self, var: Var) -> StepEnd
        requires place { self.old.pc < 2 ^ 63 }
        requires fit { Fits (Arg var) self.old }
        ensures { Ends (Arg var) self.old result self.new }
    {
        let object = self.object(var);
        self.gather(object);
        self.advance();
        StepEnd::Went
    }

    // Calls a unit with the arguments.
    #[inline(never)]
    pub(crate) fn call(&mut self, code: &Code, unit: u32) -> StepEnd
        requires place { self.old.pc < 2 ^ 63 }
        requires fit { (line : ℕ) × (words : ℕ) × (records : Input) × FitsIn words records (does code.now (Call unit) line) self.old }
        ensures { (line : ℕ) (records : Input) → EndsOn records (does code.now (Call unit) line) self.old result self.new }
    {
        self.enter(start_of(code, unit), unit);
        StepEnd::Went
    }

    // Goes back to where the unit was called.
    #[inline(never)]
    pub(crate) fn return_back(&mut self) -> StepEnd
        requires fit { Fits Return self.old }
        ensures { Ends Return self.old result self.new }
    {
        if self.leave() {
            StepEnd::Went
        } else {
            unreachable!()
        }
    }

    // Pops the controls of a DOALL, and forks its iterations.
    #[inline(never)]
    pub(crate) fn fork_doall(&mut self, number: u32, by: i32, line: u32) -> StepEnd
        requires place { self.old.pc < 2 ^ 63 }
        requires fit { FitsAt (Fork number by) line self.old }
        ensures { EndsAt (Fork number by) line self.old result self.new }
    {
        let after = moved(self.pc(), by);
        let Some((from, to, by)) = self.pop_controls() else {
            unreachable!();
        };
        match iterations(from, to, by) {
            Ok(count) => {
                self.fork(after);
                StepEnd::Forked {
                    number,
                    count,
                    from,
                    by,
                }
            }
            Err(kind) => StepEnd::Faulted(kind, line),
        }
    }
}
