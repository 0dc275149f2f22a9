//! The program `cdc_cache_bench CALLS KIND`: makes so many calls on the memory side of a machine with one processor, and
//! prints the processor's counts and the sum of the values that it loaded. KIND is `hits`, `misses` or `plain`.
#![tactic(auto)]

mod calls;
mod kind;
mod sides;

use calls::Outcome;
use cdc_base::NoMemory;
use kind::Kind;
use sides::outcome_on;
use std::alloc::AllocError;
use std::process::ExitCode;
use std::rt::Env;
use std::{env, io};

// Why nothing, or not all, was printed.
#[derive(Debug, Drop)]
enum Fault {
    // The words are not a number of calls and a kind.
    Words,
    NoMemory,
    System(io::Error),
}

impl From<NoMemory> for Fault {
    fn from(_: NoMemory) -> Self {
        Fault::NoMemory
    }
}

impl From<AllocError> for Fault {
    fn from(_: AllocError) -> Self {
        Fault::NoMemory
    }
}

impl From<io::Error> for Fault {
    fn from(error: io::Error) -> Self {
        Fault::System(error)
    }
}

// The number of calls and their kind, from the words after the program's name.
fn request_of<R: Env + AllocGlobal>(rt: &R) -> Result<(u32, Kind), Fault> {
    let words: Vec<String> = env::args(rt)?.skip(1).collect(rt.alloc())?;
    if words.len() != 2 {
        return Err(Fault::Words);
    }
    let Ok(calls) = words[0].parse::<u32>() else {
        return Err(Fault::Words);
    };
    match Kind::named(words[1].as_str()) {
        Some(kind) => Ok((calls, kind)),
        None => Err(Fault::Words),
    }
}

fn print_outcome<R: Print>(rt: &R, outcome: &Outcome) -> io::Result<()> {
    let counts = outcome.counts;
    println!(rt;
        "p0 reads {} ordinary {} marked {} misses {} evicted {} invalidated {}",
        counts.reads,
        counts.ordinary,
        counts.marked,
        counts.misses,
        counts.evicted,
        counts.invalidated
    )?;
    println!(rt; "sum {}", outcome.sum)
}

fn run<R: Env + Print + AllocGlobal>(rt: &R) -> Result<(), Fault> {
    let (calls, kind) = request_of(rt)?;
    let outcome = outcome_on(rt.alloc(), calls, kind)?;
    print_outcome(rt, &outcome)?;
    Ok(())
}

fn main(rt: HostRuntime) -> ExitCode {
    let Err(fault) = run(&rt) else {
        return ExitCode::SUCCESS;
    };
    let line = match fault {
        Fault::Words => "usage: cdc_cache_bench CALLS hits|misses|plain",
        Fault::NoMemory => "cdc_cache_bench: out of memory",
        Fault::System(_) => "cdc_cache_bench: a word that is not UTF-8, or a write fault",
    };
    let _ = rt.eprintln(line);
    ExitCode::FAILURE
}
