//! One instruction of a task.

ghost use Rattle.std.specs.Prelude.{◌≡◌, ◌<◌, ◌^◌, ℕ, List as Items};
ghost use Rattle.cdc_prog.specs.Input.{Input};
ghost use Rattle.cdc_code.specs.Rows.{act};
ghost use Rattle.cdc_task.specs.Held.{frame_of};
ghost use Rattle.cdc_task.specs.Steps.{GoesOn, NamesRight, Stepped, FitsIn, EndsOn, StepsOn, TouchesNothing, IsOperation, IsRare, does};

use crate::end::StepEnd;
use crate::port::Port;
use crate::task::Task;
use cdc_base::List;
use cdc_code::{Code, Instr, Step};
use cdc_input::InputRecords;
use cdc_prog::{Piece, UnOp};

impl Task {
    /// One instruction of the code for which the task was made. The task stands in a frame that goes on or ends: one
    /// that sound code comes to. The one access that the instruction makes is a call of the port, and else the port
    /// stays.
    #[inline(always)]
    pub fn step<P: Port>(&mut self, code: &Code, records: &InputRecords, port: &mut P) -> StepEnd
        requires goes { (path : Items ℕ) × GoesOn code.now (frame_of path records.now.records self.old) }
        requires words { P.words port.old ≡ code.now.words }
        ensures step { (path : Items ℕ) → Stepped P.Port records.now.records (act code.now (frame_of path records.now.records self.old)) port.old result self.new port.new }
        ensures words { P.words port.new ≡ P.words port.old }
    {
        let _words = code.words;
        let Some(step) = code.steps.as_slice().get(self.pc()) else {
            unreachable!();
        };
        self.carry_out(code, records.records.as_slice(), port, step)
    }

    // An instruction: those that touch memory, and the others.
    #[inline(always)]
    fn carry_out<P: Port>(
        &mut self,
        code: &Code,
        records: &[List<i64>],
        port: &mut P,
        step: &Step,
    ) -> StepEnd
        requires place { self.old.pc < 2 ^ 63 }
        requires small { P.words port.old < 2 ^ 32 }
        requires names { NamesRight code.now self.old.unit step.now.instr }
        requires fit { FitsIn (P.words port.old) records.now (does code.now step.now.instr step.now.line) self.old }
        ensures step { StepsOn P.Port records.now (does code.now step.now.instr step.now.line) self.old port.old result self.new port.new }
        ensures words { P.words port.new ≡ P.words port.old }
    {
        match step.instr {
            Instr::Load(var, _, mark) => self.load(code, port, var, mark),
            Instr::Loade(var, _, mark) => self.load_element(code, port, var, mark),
            Instr::Store(var, _) => self.store(code, port, var),
            Instr::Storee(var, _) => self.store_element(code, port, var),
            _ => self.go_on(code, records, step),
        }
    }

    // An instruction that touches no memory.
    #[inline(always)]
    fn go_on(&mut self, code: &Code, records: &[List<i64>], step: &Step) -> StepEnd
        requires place { self.old.pc < 2 ^ 63 }
        requires kind { TouchesNothing step.now.instr }
        requires names { NamesRight code.now self.old.unit step.now.instr }
        requires fit { (words : ℕ) × FitsIn words records.now (does code.now step.now.instr step.now.line) self.old }
        ensures { EndsOn records.now (does code.now step.now.instr step.now.line) self.old result self.new }
    {
        match step.instr {
            Instr::Const(number) => self.push_number(number),
            Instr::Local(k) => self.push_slot(k),
            Instr::Setlocal(k) => self.pop_slot(k),
            Instr::Index(var) => self.index(code, var, step.line),
            Instr::Jump(by) => self.jump(by),
            Instr::Jumpz(by) => self.jump_on_zero(by),
            Instr::Dotest(by) => self.test_loop(by),
            Instr::Doadd => self.raise(step.line),
            Instr::Add => self.add(step.line),
            Instr::Join => StepEnd::Joined,
            _ => self.operate(code, records, step),
        }
    }

    // An instruction that few statements have.
    #[inline(always)]
    pub(crate) fn go_on_rarely(
        &mut self,
        code: &Code,
        records: &[List<i64>],
        instr: Instr,
        line: u32,
    ) -> StepEnd
        requires place { self.old.pc < 2 ^ 63 }
        requires kind { IsRare instr }
        requires fit { (words : ℕ) × FitsIn words records.now (does code.now instr line) self.old }
        ensures { EndsOn records.now (does code.now instr line) self.old result self.new }
    {
        match instr {
            Instr::Neg => self.apply_unary(UnOp::Neg, line),
            Instr::Abs => self.apply_unary(UnOp::Abs, line),
            Instr::Not => self.apply_unary(UnOp::Not, line),
            Instr::Doinit => self.open_loop(line),
            Instr::Take => self.push_input(records, line),
            Instr::RecordEnd => self.skip_record(records, line),
            Instr::Put => self.put(),
            Instr::Gap => self.say(Piece::Space),
            Instr::Text(number) => self.say(Piece::Text(number)),
            Instr::Line => self.say(Piece::LineEnd),
            Instr::Arg(var) => self.pass(var),
            Instr::Call(unit) => self.call(code, unit),
            Instr::Return => self.return_back(),
            Instr::Fork(number, by) => self.fork_doall(number, by, line),
            Instr::Halt => StepEnd::Halted,
            _ => unreachable!(),
        }
    }
}
