// Whole programs.
ghost use Rattle.std.specs.Prelude.{◌≡◌, pos, length, replicate, IfOk};
ghost use Rattle.cdc_prog.specs.Translation.{program_of, stmts_of};
ghost use Rattle.cdc_prog.specs.Units.{body_of};
ghost use Rattle.cdc_prog.specs.Resolved.{IsResolved, HasNoCall};
ghost use Rattle.cdc_prog.specs.Meaning.{meaning};
ghost use Rattle.cdc_prog.specs.Answers.{IsRun, HasPlainCause};
ghost use Rattle.cdc_meaning.specs.Answers.{TellsLine};
ghost use Rattle.cdc_meaning.specs.Doall.{SlotsWithin};

use crate::doall::most_slots;
use crate::exec::{Streams, exec_all};
use crate::frame::Frame;
use crate::print::Page;
use cdc_base::{List, NoMemory, Sink};
use cdc_input::InputRecords;
use cdc_prog::{Plain, Program, Stmt, Unread, answer, hand_on};
use std::alloc::Global;

/// How the run of a program ended, and whether the line that it printed last is open.
#[derive(Clone, Copy, Debug, PartialEq, Eq)]
pub struct Ran {
    pub answer: Plain,
    /// Bytes stand behind the last line end that was printed.
    pub is_open: bool,
}

// The memory of a run: the words of the objects, and room for the slots of an iteration.
#[derive(Drop)]
struct Memory {
    words: Vec<i64>,
    lane: Vec<i64>,
}

impl Memory {
    // The words are 0, and there is room for the iterations of each DOALL of the main unit.
    fn take(alloc: Global, program: &Program) -> Result<Memory, NoMemory>
        requires resolved { IsResolved (program_of program.now) }
        requires calls { HasNoCall (program_of program.now) }
        ensures zeros { IfOk result (λ m. m.words.items ≡ replicate program.now.words (pos 0)) }
        ensures lane { IfOk result (λ m. SlotsWithin (length m.lane.items) (body_of (program_of program.now) program.now.main)) }
    {
        let words = vec![in alloc; 0; program.words as usize]?;
        let lane = vec![in alloc; 0; most_slots(main_body(program)) as usize]?;
        Ok(Memory { words, lane })
    }
}

/// Carries out a program by the rules of the language, on one store, and writes its output as it
/// comes; the iterations of a DOALL come one after another. The program has no CALL. All memory is
/// taken before the first byte is written.
/// Where the sink did not fail and memory did not run out, the last line is told to be open exactly
/// where all the output ends in bytes behind its last line end.
pub fn run_lines<K: Sink>(
    alloc: Global,
    program: &Program,
    records: &InputRecords,
    out: &mut K,
) -> Ran
    requires resolved { IsResolved (program_of program.now) }
    requires calls { HasNoCall (program_of program.now) }
    ensures run { IsRun (meaning (program_of program.now) records.now.records) (K.taken out.old) (K.taken out.new) result.answer }
    ensures line { TellsLine (meaning (program_of program.now) records.now.records) result }
    ensures cause { HasPlainCause (K.faults out.old) (K.faults out.new) result.answer }
{
    match Memory::take(alloc, program) {
        Ok(mut memory) => run_on(
            program,
            records.records.as_slice(),
            &mut memory.words,
            &mut memory.lane,
            out,
        ),
        Err(_) => Ran {
            answer: Plain::Memory,
            is_open: false,
        },
    }
}

/// Carries out a program, as `run_lines` does, and answers how it ended.
pub fn run_plain<K: Sink>(
    alloc: Global,
    program: &Program,
    records: &InputRecords,
    out: &mut K,
) -> Plain
    requires resolved { IsResolved (program_of program.now) }
    requires calls { HasNoCall (program_of program.now) }
    ensures run { IsRun (meaning (program_of program.now) records.now.records) (K.taken out.old) (K.taken out.new) result }
    ensures cause { HasPlainCause (K.faults out.old) (K.faults out.new) result }
{
    run_lines(alloc, program, records, out).answer
}

// Carries out the main unit of a program on words of 0.
fn run_on<K: Sink>(
    program: &Program,
    records: &[List<i64>],
    words: &mut [i64],
    lane: &mut [i64],
    out: &mut K,
) -> Ran
    requires resolved { IsResolved (program_of program.now) }
    requires calls { HasNoCall (program_of program.now) }
    requires zeros { words.old ≡ replicate program.now.words (pos 0) }
    requires lane { SlotsWithin (length lane.old) (body_of (program_of program.now) program.now.main) }
    ensures run { IsRun (meaning (program_of program.now) records.now) (K.taken out.old) (K.taken out.new) result.answer }
    ensures line { TellsLine (meaning (program_of program.now) records.now) result }
    ensures cause { HasPlainCause (K.faults out.old) (K.faults out.new) result.answer }
{
    let frame = Frame {
        program,
        dummies: &[],
        bound: &[],
    };
    let mut streams = Streams {
        unread: Unread::new(records),
        page: Page::new(),
    };
    let end = exec_all(
        &frame,
        words,
        &mut [],
        lane,
        &mut streams,
        out,
        main_body(program),
    );
    let end = hand_on(end, &mut streams.page.gathered, out);
    Ran {
        answer: answer(end),
        is_open: streams.page.is_open,
    }
}

// The statements of the main unit.
fn main_body(program: &Program) -> &[Stmt]
    requires resolved { IsResolved (program_of program.now) }
    requires calls { HasNoCall (program_of program.now) }
    ensures { stmts_of result.now ≡ body_of (program_of program.now) program.now.main }
{
    program.units.as_slice()[program.main as usize]
        .body
        .as_slice()
}
