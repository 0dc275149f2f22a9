// The command table as a command of `clap`, with a subcommand for each line.
ghost use Rattle.std.specs.Prelude.{◌≡◌, IfOk, false};
ghost use Rattle.clap.specs.Words.{rule_of};
ghost use Rattle.cdc_words.specs.Parser.{Parses, needed, bare, with_one, with_two, with_three, tool};

use clap::{Arg, Command};
use std::alloc::{AllocError, Global};

/// What the words behind that of a command are called, in order.
pub(crate) const FIRST: &str = "first";

pub(crate) const SECOND: &str = "second";

pub(crate) const THIRD: &str = "third";

fn needed<'a>(alloc: Global, id: &'a str) -> Arg<'a>
    ensures rule { rule_of result ≡ needed id.entry.now }
    ensures local { result.global ≡ false }
{
    Arg::new(alloc, id).required(true)
}

fn with_one<'a>(alloc: Global, name: &'a str) -> Result<Command<'a>, AllocError>
    ensures { IfOk result (Parses (with_one name.entry.now)) }
{
    Command::new(alloc, name).arg(needed(alloc, FIRST))
}

fn with_two<'a>(alloc: Global, name: &'a str) -> Result<Command<'a>, AllocError>
    ensures { IfOk result (Parses (with_two name.entry.now)) }
{
    with_one(alloc, name)?.arg(needed(alloc, SECOND))
}

fn with_three<'a>(alloc: Global, name: &'a str) -> Result<Command<'a>, AllocError>
    ensures { IfOk result (Parses (with_three name.entry.now)) }
{
    with_two(alloc, name)?.arg(needed(alloc, THIRD))
}

fn bare<'a>(alloc: Global) -> Command<'a>
    ensures { Parses bare result }
{
    Command::new(alloc, "cdcc")
        .no_binary_name(true)
        .disable_help_flag(true)
        .disable_version_flag(true)
        .disable_help_subcommand(true)
        .subcommand_required(true)
}

/// The whole table. It knows no help and no version of its own.
pub(crate) fn tool<'a>(alloc: Global) -> Result<Command<'a>, AllocError>
    ensures { IfOk result (Parses tool) }
{
    bare(alloc)
        .subcommand(with_three(alloc, "run")?)?
        .subcommand(with_one(alloc, "check")?)?
        .subcommand(with_one(alloc, "marks")?)?
        .subcommand(with_one(alloc, "code")?)?
        .subcommand(with_two(alloc, "seq")?)?
        .subcommand(with_one(alloc, "bench")?)
}
