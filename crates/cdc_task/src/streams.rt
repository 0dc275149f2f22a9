//! Input and output.

ghost use Rattle.std.specs.Prelude.{◌<◌, ◌^◌, ℕ};
ghost use Rattle.cdc_code.specs.declared.code.Code.{Code as CodeOf};
ghost use Rattle.cdc_code.specs.declared.instr.Instr.TheVariants.{Take, RecordEnd, Put};
ghost use Rattle.cdc_prog.specs.declared.piece.Piece.{Piece as PieceOf};
ghost use Rattle.cdc_task.specs.Steps.{FitsIn, EndsOn, Fits, Ends, Says, does};

use crate::end::StepEnd;
use crate::task::Task;
use cdc_base::List;
use cdc_prog::Piece;

impl Task {
    // Pushes the next value of the input.
    #[inline(never)]
    pub(crate) fn push_input(&mut self, records: &[List<i64>], line: u32) -> StepEnd
        requires place { self.old.pc < 2 ^ 63 }
        requires fit { (code : CodeOf) × (words : ℕ) × FitsIn words records.now (does code Take line) self.old }
        ensures { (code : CodeOf) → EndsOn records.now (does code Take line) self.old result self.new }
    {
        match self.take(records) {
            Ok(value) => {
                self.push(value);
                self.advance();
                StepEnd::Went
            }
            Err(kind) => StepEnd::Faulted(kind, line),
        }
    }

    // Skips the rest of the record.
    #[inline(never)]
    pub(crate) fn skip_record(&mut self, records: &[List<i64>], line: u32) -> StepEnd
        requires place { self.old.pc < 2 ^ 63 }
        ensures { (code : CodeOf) → EndsOn records.now (does code RecordEnd line) self.old result self.new }
    {
        match self.end_record(records) {
            Ok(()) => {
                self.advance();
                StepEnd::Went
            }
            Err(kind) => StepEnd::Faulted(kind, line),
        }
    }

    // Pops a number and prints it.
    #[inline(never)]
    pub(crate) fn put(&mut self) -> StepEnd
        requires place { self.old.pc < 2 ^ 63 }
        requires fit { Fits Put self.old }
        ensures { Ends Put self.old result self.new }
    {
        let Some(value) = self.pop() else {
            unreachable!();
        };
        self.advance();
        StepEnd::Printed(Piece::Number(value))
    }

    // Prints a piece.
    #[inline(never)]
    pub(crate) fn say(&mut self, piece: Piece) -> StepEnd
        requires place { self.old.pc < 2 ^ 63 }
        ensures { Says piece self.old result self.new }
    {
        self.advance();
        StepEnd::Printed(piece)
    }
}
