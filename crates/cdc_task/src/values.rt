//! Numbers, slots and elements of arrays.

ghost use Rattle.std.specs.Prelude.{◌≡◌, ◌<◌, ◌^◌, ℕ, [], get_or};
ghost use Rattle.cdc_prog.specs.Data.{size_of, element, dims_at};
ghost use Rattle.cdc_prog.specs.Input.{Input};
ghost use Rattle.cdc_code.specs.declared.instr.Instr.TheVariants.{Const, Local, Setlocal, Index};
ghost use Rattle.cdc_code.specs.declared.room.TheConstants.{SLOTS as SLOTS_SIZE};
ghost use Rattle.cdc_task.specs.Steps.{IsArray, FitsIn, EndsOn, Fits, Ends, does};

use crate::end::StepEnd;
use crate::task::Task;
use cdc_code::Code;
use cdc_prog::{Dim, FaultKind, Var, element, position};

// The number of an element: that of an array of one dimension at once.
#[inline(always)]
fn number_of(dims: &[Dim], subs: &[i64]) -> Result<u32, FaultKind>
    requires some { 0 < size_of dims.now }
    requires small { size_of dims.now < 2 ^ 32 }
    ensures { result ≡ element dims.now subs.now }
{
    if dims.len() == 1 && subs.len() == 1 {
        position(dims[0], subs[0])
    } else {
        element(dims, subs)
    }
}

impl Task {
    // Pushes a number.
    #[inline(always)]
    pub(crate) fn push_number(&mut self, number: i64) -> StepEnd
        requires place { self.old.pc < 2 ^ 63 }
        requires fit { Fits (Const number) self.old }
        ensures { Ends (Const number) self.old result self.new }
    {
        self.push(number);
        self.advance();
        StepEnd::Went
    }

    // Pushes a slot.
    #[inline(always)]
    pub(crate) fn push_slot(&mut self, k: u32) -> StepEnd
        requires place { self.old.pc < 2 ^ 63 }
        requires there { k < SLOTS_SIZE }
        requires fit { Fits (Local k) self.old }
        ensures { Ends (Local k) self.old result self.new }
    {
        let value = self.slot(k);
        self.push(value);
        self.advance();
        StepEnd::Went
    }

    // Pops a value into a slot.
    #[inline(always)]
    pub(crate) fn pop_slot(&mut self, k: u32) -> StepEnd
        requires place { self.old.pc < 2 ^ 63 }
        requires there { k < SLOTS_SIZE }
        requires fit { Fits (Setlocal k) self.old }
        ensures { Ends (Setlocal k) self.old result self.new }
    {
        let Some(value) = self.pop() else {
            unreachable!();
        };
        self.set_slot(k, value);
        self.advance();
        StepEnd::Went
    }

    // Pops the subscripts of an array and pushes the number of the element.
    #[inline(always)]
    pub(crate) fn index(&mut self, code: &Code, var: Var, line: u32) -> StepEnd
        requires place { self.old.pc < 2 ^ 63 }
        requires array { IsArray (dims_at code.now.objects (get_or code.now.shapes self.old.unit []) var) }
        requires fit { (words : ℕ) × (records : Input) × FitsIn words records (does code.now (Index var) line) self.old }
        ensures { (records : Input) → EndsOn records (does code.now (Index var) line) self.old result self.new }
    {
        let dims = self.dims(code, var);
        let found = number_of(dims, self.top(dims.len()));
        self.drop_top(dims.len());
        match found {
            Ok(number) => {
                self.push(number as i64);
                self.advance();
                StepEnd::Went
            }
            Err(kind) => StepEnd::Faulted(kind, line),
        }
    }
}
