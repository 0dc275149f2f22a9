//! Loads and stores.

ghost use Rattle.std.specs.Prelude.{◌≡◌, ◌<◌, ◌^◌, ℕ};
ghost use Rattle.cdc_prog.specs.Input.{Input};
ghost use Rattle.cdc_code.specs.declared.instr.Instr.TheVariants.{Load, Loade, Store, Storee};
ghost use Rattle.cdc_task.specs.Steps.{FitsIn, StepsOn, does};

use crate::end::StepEnd;
use crate::port::Port;
use crate::task::Task;
use cdc_code::Code;
use cdc_prog::{Mark, Var};

impl Task {
    // Pushes the word of a scalar.
    #[inline(always)]
    pub(crate) fn load<P: Port>(
        &mut self,
        code: &Code,
        port: &mut P,
        var: Var,
        mark: Mark,
    ) -> StepEnd
        requires place { self.old.pc < 2 ^ 63 }
        requires small { P.words port.old < 2 ^ 32 }
        requires fit { (site line : ℕ) × (records : Input) × FitsIn (P.words port.old) records (does code.now (Load var site mark) line) self.old }
        ensures step { (site line : ℕ) (records : Input) → StepsOn P.Port records (does code.now (Load var site mark) line) self.old port.old result self.new port.new }
        ensures words { P.words port.new ≡ P.words port.old }
    {
        let value = port.load(self.base(code, var), mark);
        self.push(value);
        self.advance();
        StepEnd::Went
    }

    // Pops the number of an element, and pushes its word.
    #[inline(always)]
    pub(crate) fn load_element<P: Port>(
        &mut self,
        code: &Code,
        port: &mut P,
        var: Var,
        mark: Mark,
    ) -> StepEnd
        requires place { self.old.pc < 2 ^ 63 }
        requires small { P.words port.old < 2 ^ 32 }
        requires fit { (site line : ℕ) × (records : Input) × FitsIn (P.words port.old) records (does code.now (Loade var site mark) line) self.old }
        ensures step { (site line : ℕ) (records : Input) → StepsOn P.Port records (does code.now (Loade var site mark) line) self.old port.old result self.new port.new }
        ensures words { P.words port.new ≡ P.words port.old }
    {
        let Some(number) = self.pop() else {
            unreachable!();
        };
        let word = self.base(code, var) + number as u32;
        let value = port.load(word, mark);
        self.push(value);
        self.advance();
        StepEnd::Went
    }

    // Pops a value, and writes it to a scalar.
    #[inline(always)]
    pub(crate) fn store<P: Port>(&mut self, code: &Code, port: &mut P, var: Var) -> StepEnd
        requires place { self.old.pc < 2 ^ 63 }
        requires small { P.words port.old < 2 ^ 32 }
        requires fit { (site line : ℕ) × (records : Input) × FitsIn (P.words port.old) records (does code.now (Store var site) line) self.old }
        ensures step { (site line : ℕ) (records : Input) → StepsOn P.Port records (does code.now (Store var site) line) self.old port.old result self.new port.new }
        ensures words { P.words port.new ≡ P.words port.old }
    {
        let Some(value) = self.pop() else {
            unreachable!();
        };
        port.store(self.base(code, var), value);
        self.advance();
        StepEnd::Went
    }

    // Pops a value and the number of an element, and writes the value there.
    #[inline(always)]
    pub(crate) fn store_element<P: Port>(&mut self, code: &Code, port: &mut P, var: Var) -> StepEnd
        requires place { self.old.pc < 2 ^ 63 }
        requires small { P.words port.old < 2 ^ 32 }
        requires fit { (site line : ℕ) × (records : Input) × FitsIn (P.words port.old) records (does code.now (Storee var site) line) self.old }
        ensures step { (site line : ℕ) (records : Input) → StepsOn P.Port records (does code.now (Storee var site) line) self.old port.old result self.new port.new }
        ensures words { P.words port.new ≡ P.words port.old }
    {
        let Some(value) = self.pop() else {
            unreachable!();
        };
        let Some(number) = self.pop() else {
            unreachable!();
        };
        let word = self.base(code, var) + number as u32;
        port.store(word, value);
        self.advance();
        StepEnd::Went
    }
}
