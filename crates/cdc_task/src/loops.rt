//! Jumps and loops.

ghost use Rattle.std.specs.Prelude.{◌≡◌, ◌<◌, ◌^◌};
ghost use Rattle.cdc_prog.specs.Input.{Input};
ghost use Rattle.cdc_code.specs.declared.code.Code.{Code as CodeOf};
ghost use Rattle.cdc_code.specs.declared.instr.Instr.TheVariants.{Jump, Jumpz, Doinit, Dotest, Doadd};
ghost use Rattle.cdc_code.specs.Rows.{moved};
ghost use Rattle.cdc_task.specs.Steps.{Fits, Ends, FitsAt, EndsAt};

use crate::end::StepEnd;
use crate::operators::sum;
use crate::parts::Open;
use crate::task::Task;
use cdc_prog::turns;

// A place that is so much further.
#[inline(always)]
pub fn moved(pc: usize, by: i32) -> usize
    requires { pc < 2 ^ 63 }
    ensures { result ≡ moved pc by }
{
    if by >= 0 {
        pc + by as usize
    } else {
        pc.saturating_sub(by.unsigned_abs() as usize)
    }
}

impl Task {
    // Goes on at a place that is so much further.
    #[inline(always)]
    pub(crate) fn jump(&mut self, by: i32) -> StepEnd
        requires place { self.old.pc < 2 ^ 63 }
        ensures { Ends (Jump by) self.old result self.new }
    {
        self.go_to(moved(self.pc(), by));
        StepEnd::Went
    }

    // Pops a value, and goes on there where it is 0.
    #[inline(always)]
    pub(crate) fn jump_on_zero(&mut self, by: i32) -> StepEnd
        requires place { self.old.pc < 2 ^ 63 }
        requires fit { Fits (Jumpz by) self.old }
        ensures { Ends (Jumpz by) self.old result self.new }
    {
        match self.pop() {
            Some(0) => self.go_to(moved(self.pc(), by)),
            Some(_) => self.advance(),
            None => unreachable!(),
        }
        StepEnd::Went
    }

    // Pops the controls of a loop, opens it, and pushes its first value.
    #[inline(never)]
    pub(crate) fn open_loop(&mut self, line: u32) -> StepEnd
        requires place { self.old.pc < 2 ^ 63 }
        requires fit { FitsAt Doinit line self.old }
        ensures { EndsAt Doinit line self.old result self.new }
    {
        let Some((from, to, by)) = self.pop_controls() else {
            unreachable!();
        };
        match turns(from, to, by) {
            Ok(left) => {
                self.open(Open { left, by });
                self.push(from);
                self.advance();
                StepEnd::Went
            }
            Err(kind) => StepEnd::Faulted(kind, line),
        }
    }

    // Begins a turn of the innermost loop; where none is left, closes the loop and goes on elsewhere.
    #[inline(always)]
    pub(crate) fn test_loop(&mut self, by: i32) -> StepEnd
        requires place { self.old.pc < 2 ^ 63 }
        requires fit { Fits (Dotest by) self.old }
        ensures { Ends (Dotest by) self.old result self.new }
    {
        match self.close() {
            Some(Open { left: 0, .. }) => self.go_to(moved(self.pc(), by)),
            Some(Open { left, by }) => {
                self.open(Open { left: left - 1, by });
                self.advance();
            }
            None => unreachable!(),
        }
        StepEnd::Went
    }

    // Adds the step of the innermost loop to the top of the stack.
    #[inline(always)]
    pub(crate) fn raise(&mut self, line: u32) -> StepEnd
        requires place { self.old.pc < 2 ^ 63 }
        requires fit { FitsAt Doadd line self.old }
        ensures { EndsAt Doadd line self.old result self.new }
    {
        let Some(value) = self.pop() else {
            unreachable!();
        };
        let Some(open) = self.innermost() else {
            unreachable!();
        };
        match sum(value, open.by) {
            Ok(raised) => {
                self.push(raised);
                self.advance();
                StepEnd::Went
            }
            Err(kind) => StepEnd::Faulted(kind, line),
        }
    }
}
