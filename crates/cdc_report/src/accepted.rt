// The text on an accepted program.

ghost use Rattle.std.specs.Prelude.{◌≡◌, length};
ghost use Rattle.cdc_prog.specs.Translation.{program_of};
ghost use Rattle.cdc_text.specs.Pieces.{Wrote};
ghost use Rattle.cdc_report.specs.Accepted.{accepted_text};

use cdc_base::{Sink, SinkFault};
use cdc_prog::Program;
use cdc_text::{Text, write_texts};

fn unit_count(program: &Program) -> u64
    ensures { result ≡ length (program_of program.now).units }
{
    program.units.as_slice().len() as u64
}

fn object_count(program: &Program) -> u64
    ensures { result ≡ length (program_of program.now).objects }
{
    program.objects.as_slice().len() as u64
}

/// Writes one line with the numbers of units, objects, words of memory, sites and DOALL loops of a program.
pub fn write_accepted<K: Sink>(program: &Program, out: &mut K) -> Result<(), SinkFault>
    ensures { Wrote (accepted_text (program_of program.now)) result (K.taken out.old) (K.taken out.new) (K.faults out.old) (K.faults out.new) }
{
    write_texts(
        out,
        &[
            Text::Words(b"accepted units "),
            Text::Number(unit_count(program)),
            Text::Words(b" objects "),
            Text::Number(object_count(program)),
            Text::Words(b" words "),
            Text::Number(program.words as u64),
            Text::Words(b" sites "),
            Text::Number(program.sites as u64),
            Text::Words(b" doalls "),
            Text::Number(program.doalls as u64),
            Text::Words(b"\n"),
        ],
    )
}
