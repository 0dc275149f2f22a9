// The top call: one command of a command line.
ghost use Rattle.std.specs.Prelude.{Some, map, string_bytes};
ghost use Rattle.cdc_words.specs.Matched.{chosen};
ghost use Rattle.cdc_top.specs.Answer.{built, command_of, ToolEnded};
ghost use Rattle.cdc_top.specs.Complete.{Completes};
ghost use Rattle.cdc_top.specs.Laws.{MeansTheSource, NoReadHits};

use crate::run::{run_files, say};
use crate::seq::seq_files;
use crate::source::{Question, ask_file};
use crate::status::{NO_COMMAND, OUT_OF_MEMORY};
use cdc_base::{Sink, Store};
use cdc_words::{Command, read_command};
use std::alloc::Global;

const USAGE: &[u8] =
    b"usage: cdcc run PROG INPUT SCHED\n       cdcc check PROG\n       cdcc marks PROG\n       cdcc code PROG\n       cdcc seq PROG INPUT\n       cdcc bench N\n";

// Carries out a command. `bench` is not built yet, and is answered as words that are no command.
fn carry_out<S: Store, K: Sink>(
    alloc: Global,
    command: Command<'_>,
    store: &mut S,
    out: &mut K,
) -> u8
    ensures { ToolEnded (built (Some (chosen command.entry))) (S.told store.old) result
        (K.taken out.old) (K.taken out.new) (S.faults store.old) (S.faults store.new) (K.faults out.old) (K.faults out.new) }
{
    match command {
        Command::Run(program, input, schedule) => {
            run_files(alloc, program, input, schedule, store, out)
        }
        Command::Check(program) => ask_file(alloc, Question::Check, program, store, out),
        Command::Marks(program) => ask_file(alloc, Question::Marking, program, store, out),
        Command::Code(program) => ask_file(alloc, Question::Listing, program, store, out),
        Command::Seq(program, input) => seq_files(alloc, program, input, store, out),
        Command::Bench(_) => say(out, USAGE, NO_COMMAND),
    }
}

// Reads the words, and carries out their command.
fn answer_words<S: Store, K: Sink>(
    alloc: Global,
    words: &[String],
    store: &mut S,
    out: &mut K,
) -> u8
    ensures { ToolEnded (command_of (map string_bytes words.now)) (S.told store.old) result
        (K.taken out.old) (K.taken out.new) (S.faults store.old) (S.faults store.new) (K.faults out.old) (K.faults out.new) }
{
    let command = match read_command(alloc, words) {
        Ok(command) => command,
        Err(_) => return OUT_OF_MEMORY,
    };
    match command {
        Some(command) => carry_out(alloc, command, store, out),
        None => say(out, USAGE, NO_COMMAND),
    }
}

/// Carries out one command: `words` are the words of the command line behind the program's name.
/// It reads files from `store`, writes what it prints to `out`, and gives the status.
///
/// | Status | Comes |
/// |---|---|
/// | 0 | the run or the program is done, or the program is accepted |
/// | 1 | the run or the program ended with a fault |
/// | 2 | the words are no command |
/// | 3 | the program is refused |
/// | 4 | the input or the schedule is refused |
/// | 5 | a file could not be read |
/// | 6 | the sink failed |
/// | 7 | memory ran out, and nothing was written |
/// | 8 | the run was stopped at its bound |
pub fn run_tool<S: Store, K: Sink>(
    alloc: Global,
    words: &Vec<String>,
    store: &mut S,
    out: &mut K,
) -> u8
    ensures bytes_status_and_causes { ToolEnded (command_of (map string_bytes words.now.items)) (S.told store.old) result
        (K.taken out.old) (K.taken out.new) (S.faults store.old) (S.faults store.new) (K.faults out.old) (K.faults out.new) }
    ensures meaning { MeansTheSource }
    ensures hits { NoReadHits }
    ensures completeness { Completes (command_of (map string_bytes words.now.items)) (S.told store.old) result
        (S.faults store.old) (S.faults store.new) (K.faults out.old) (K.faults out.new) }
{
    answer_words(alloc, words, store, out)
}
