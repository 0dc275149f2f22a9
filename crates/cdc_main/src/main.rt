//! The program `cdcc`: hands its words, the files and standard output to the top call, and ends with
//! the status that this answers.
#![tactic(auto)]

mod file_store;
mod out_sink;
mod words;

use cdc_base::NoMemory;
use cdc_top::{OUT_OF_MEMORY, READ_FAULT, WRITE_FAULT, run_tool};
use file_store::FileStore;
use out_sink::OutSink;
use std::process::ExitCode;
use std::rt::{Env, Files};
use words::words_of;

fn status_of<R: Env + Files + Print + AllocGlobal>(rt: &R) -> Result<u8, NoMemory> {
    let words = words_of(rt)?;
    let mut store = FileStore::new(rt);
    let mut out = OutSink::new(rt);
    Ok(run_tool(rt.alloc(), &words, &mut store, &mut out))
}

// What standard error is told beside a status.
fn fault_line(status: u8) -> Option<&'static str> {
    match status {
        READ_FAULT => Some("cdcc: read fault"),
        WRITE_FAULT => Some("cdcc: write fault"),
        OUT_OF_MEMORY => Some("cdcc: out of memory"),
        _ => None,
    }
}

fn main(rt: HostRuntime) -> ExitCode {
    let status = status_of(&rt).unwrap_or(OUT_OF_MEMORY);
    if let Some(line) = fault_line(status) {
        let _ = rt.eprintln(line);
    }
    ExitCode::from(status)
}

#[cfg(test)]
mod tests {
    use super::fault_line;

    #[test]
    fn three_statuses_have_a_line(rt: HostRuntime) {
        for (status, line) in [
            (0, None),
            (1, None),
            (2, None),
            (3, None),
            (4, None),
            (5, Some("cdcc: read fault")),
            (6, Some("cdcc: write fault")),
            (7, Some("cdcc: out of memory")),
            (8, None),
        ] {
            assert_eq!(rt; fault_line(status), line, "at {status}");
        }
    }
}
