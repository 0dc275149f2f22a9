//! From a source to the code of its program.

ghost use Rattle.std.specs.Prelude.{IfOk};
ghost use Rattle.std.specs.Result.{result_map_both};
ghost use Rattle.cdc_prog.specs.Apart.{IsApart};
ghost use Rattle.cdc_prog.specs.Input.{Input};
ghost use Rattle.cdc_prog.specs.Iterations.{KeepsPremises, HasDoallNumbers};
ghost use Rattle.cdc_prog.specs.Resolved.{HasNoCall};
ghost use Rattle.cdc_prog.specs.Translation.{program_of};
ghost use Rattle.cdc_prog.specs.Units.{process_of};
ghost use Rattle.cdc_path.specs.Marks.{AreMarks};
ghost use Rattle.cdc_compile.specs.Source.{IsProgramOf};
ghost use Rattle.cdc_compile.specs.Compiled.{IsSoundCodeOf};

use crate::refusal::Refusal;
use crate::source::program;
use cdc_code::Code;
use cdc_emit::emit;
use cdc_mark::marks;
use cdc_prog::{Marks, Program};
use std::alloc::Global;

/// A program, the marks of its reads, and its code.
#[derive(Drop)]
pub struct Compiled {
    pub program: Program,
    /// One mark for each site, and for each DOALL the lists of its boundaries.
    pub marks: Marks,
    /// The code of the program with these marks.
    pub code: Code,
}

/// The code of a source: that of its resolved program, with the marks of its reads and the written lists of its boundaries.
///
/// # Errors
///
/// Those of `program`. `Memory` may come at any time.
pub fn compile(alloc: Global, source: &[u8]) -> Result<Compiled, Refusal>
    ensures answer { IsProgramOf source.now (result_map_both (λ c. program_of c.program) (λ refusal. refusal) result) }

    // What is accepted keeps what theorems on iterations take of a program, and has no CALL yet.
    ensures premises { IfOk result (λ c. KeepsPremises (program_of c.program)) }
    ensures calls { IfOk result (λ c. HasNoCall (program_of c.program)) }
    ensures doalls { IfOk result (λ c. HasDoallNumbers (program_of c.program)) }
    ensures marks { IfOk result (λ c. AreMarks (program_of c.program) c.marks) }

    // The iterations of a DOALL do not meet, wherever one is reached, whatever the input is.
    ensures apart { IfOk result (λ c. (records : Input) → IsApart (process_of (program_of c.program) records)) }

    // The code does what the program does, within the room of a task. The tasks of the program keep to the paths, the sections
    // and the covers by which its marks are defined.
    ensures sound { IfOk result (λ c. IsSoundCodeOf (program_of c.program) c.marks c.code) }
{
    let program = program(alloc, source)?;
    let marks = marks(alloc, &program)?;
    let code = emit(alloc, &program, &marks)?;
    Ok(Compiled {
        program,
        marks,
        code,
    })
}
