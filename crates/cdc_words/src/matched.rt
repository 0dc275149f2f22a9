// The command of what `clap` found.
ghost use Rattle.std.specs.Prelude.{◌≡◌, option_map};
ghost use Rattle.clap.specs.Words.{first_of, found_of, rows_of, subcommand_rows_of};
ghost use Rattle.cdc_words.specs.Commands.{scaled};
ghost use Rattle.cdc_words.specs.Matched.{chosen, command_in, with_first};

use crate::command::Command;
use crate::parser::{FIRST, SECOND, THIRD};
use crate::scale::scale_of;
use clap::ArgMatches;

fn word_in<'a>(given: &ArgMatches<'a>, id: &str) -> Option<&'a str>
    ensures { option_map (λ s. s.now) result ≡ first_of id.now (rows_of (found_of given.now)) }
{
    given.get_str(id)
}

fn bench<'a>(first: &'a str) -> Option<Command<'a>>
    ensures { option_map chosen result ≡ scaled first.entry.now }
{
    Some(Command::Bench(scale_of(first)?))
}

fn with_first<'a>(verb: &str, given: &ArgMatches<'a>, first: &'a str) -> Option<Command<'a>>
    ensures { option_map chosen result ≡ with_first verb.now (rows_of (found_of given.now)) first.entry.now }
{
    match verb {
        "run" => {
            let second = word_in(given, SECOND)?;
            Some(Command::Run(first, second, word_in(given, THIRD)?))
        }
        "check" => Some(Command::Check(first)),
        "marks" => Some(Command::Marks(first)),
        "code" => Some(Command::Code(first)),
        "seq" => Some(Command::Seq(first, word_in(given, SECOND)?)),
        "bench" => bench(first),
        _ => None,
    }
}

/// The command that a subcommand and the words behind it ask for.
pub(crate) fn command_in<'a>(matches: &ArgMatches<'a>) -> Option<Command<'a>>
    ensures { option_map chosen result ≡ command_in (subcommand_rows_of matches.now) }
{
    let (verb, given) = matches.subcommand()?;
    with_first(verb, given, word_in(given, FIRST)?)
}
