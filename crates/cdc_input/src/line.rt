// The values of one line.
ghost use Rattle.std.specs.Prelude.{◌≡◌, ℕ, ◌+◌, ◌<◌, ◌≤◌, ◌^◌, true, false, length, slice_index, IfOk, IfErr, OnOk, MatchOption};
ghost use Rattle.cdc_input.specs.Records.{is_separator, IsValue, number_of, values_of};
ghost use Rattle.cdc_input.specs.Faults.{HasNoFaultIn};
ghost use Rattle.cdc_input.specs.Refusals.{FailsIn};

use crate::InputRefusal;
use cdc_base::Place;
use std::alloc::Global;

/// The values of a line of this number.
pub(crate) fn line_values(alloc: Global, number: u32, line: &[u8]) -> Result<Vec<i64>, InputRefusal>
    requires { length line.now < 2 ^ 31 }
    ensures values { IfOk result (λ v. v.items ≡ values_of line.now) }
    ensures good { OnOk result (HasNoFaultIn line.now) }
    ensures bad { IfErr result (λ e. FailsIn number line.now e) }
{
    let mut values = Vec::new(alloc);
    let mut at = 0;
    // No value stands before this place since the last comma or the start of the line.
    let mut bare = true;
    while at < line.len() {
        let byte = line[at];
        if byte == b',' {
            if bare {
                return Err(bad_number(number, at));
            }
            bare = true;
            at += 1;
            continue;
        }
        if is_separator(byte) {
            at += 1;
            continue;
        }
        let end = run_end(line, at);
        let Some(value) = value_of(&line[at..end]) else {
            return Err(bad_number(number, at));
        };
        values.push(value)?;
        bare = false;
        at = end;
    }
    Ok(values)
}

fn bad_number(line: u32, at: usize) -> InputRefusal
    requires { at < 2 ^ 31 }
    ensures { result ≡ InputRefusal.BadNumber (record { line = line; column = at + 1 }) }
{
    InputRefusal::BadNumber(Place {
        line,
        column: at as u32 + 1,
    })
}

fn is_separator(byte: u8) -> bool
    ensures { result ≡ is_separator byte }
{
    matches!(byte, b' ' | b'\t' | b',')
}

// Where the run that goes on at this place ends.
fn run_end(line: &[u8], at: usize) -> usize
    requires { at ≤ length line.now }
    ensures from { at ≤ result }
    ensures within { result ≤ length line.now }
    ensures plain { (k : ℕ) → at ≤ k → k < result → is_separator (slice_index line.now k) ≡ false }
    ensures ends { result < length line.now → is_separator (slice_index line.now result) ≡ true }
{
    let mut end = at;
    while end < line.len() && !is_separator(line[end]) {
        end += 1;
    }
    end
}

// The number that the run denotes, where it is a value.
fn value_of(run: &[u8]) -> Option<i64>
    ensures { MatchOption result (IsValue run.now → ⊥) (λ v. IsValue run.now × (v ≡ number_of run.now)) }
{
    let Ok(text) = str::from_utf8(run) else {
        return None;
    };
    text.parse().ok()
}
