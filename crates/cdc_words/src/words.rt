// The words of a command line, read by `clap`.
ghost use Rattle.std.specs.Prelude.{◌≡◌, ◌≢◌, IfOk, false, map, option_map, string_bytes};
ghost use Rattle.std.specs.List.{list_all};
ghost use Rattle.clap.specs.Words.{kind_of};
ghost use Rattle.cdc_words.specs.Commands.{is_word, command_of};
ghost use Rattle.cdc_words.specs.Matched.{chosen};

use crate::command::Command;
use crate::matched::command_in;
use crate::parser::tool;
use cdc_base::NoMemory;
use clap::Error;
use clap::error::ErrorKind;
use std::alloc::Global;

// A word that is empty or begins with `-` is part of no command.
fn is_word(word: &str) -> bool
    ensures { result ≡ is_word word.now }
{
    match word.as_bytes().first() {
        None => false,
        Some(b) => *b != b'-',
    }
}

fn are_words(words: &[String]) -> bool
    ensures { result ≡ list_all is_word (map string_bytes words.now) }
{
    words.iter().all(|word| is_word(word.as_str()))
}

fn lacks_memory(error: &Error) -> bool
    ensures { result ≡ false → kind_of error.now ≢ ErrorKind.OutOfMemory }
{
    error.kind() == ErrorKind::OutOfMemory
}

/// The command that the words of a command line ask for, `words` being those behind the program's name; none where
/// they are no line of the command table. The command's texts are those of the words.
///
/// `NoMemory` where there is none to read them.
pub fn read_command<'a>(alloc: Global, words: &'a [String]) -> Result<Option<Command<'a>>, NoMemory>
    ensures { IfOk result (λ read. option_map chosen read ≡ command_of (map string_bytes words.entry.now)) }
{
    if !are_words(words) {
        return Ok(None);
    }
    match tool(alloc)?.try_get_matches_from(words) {
        Ok(matches) => Ok(command_in(&matches)),
        Err(error) => {
            if lacks_memory(&error) {
                Err(NoMemory)
            } else {
                Ok(None)
            }
        }
    }
}
