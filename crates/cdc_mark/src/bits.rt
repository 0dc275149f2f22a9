// Sets of numbers as bits.
ghost use Rattle.std.specs.Prelude.{◌≡◌, ◌↔◌, ◌⊎◌, ℕ, ◌<◌, IsTrue, false, length, replicate, IfOk};
ghost use Rattle.cdc_mark.specs.Least.{IsIn};

use cdc_base::NoMemory;
use std::alloc::Global;

/// So many bits, none of them set.
pub fn no_bits(alloc: Global, count: usize) -> Result<Vec<bool>, NoMemory>
    ensures { IfOk result (λ bits. bits.items ≡ replicate count false) }
{
    let bits = vec![in alloc; false; count]?;
    Ok(bits)
}

/// Sets a bit, if there is such a bit.
pub fn set_bit(bits: &mut [bool], at: usize)
    ensures count { length bits.new ≡ length bits.old }
    ensures bits { (v : ℕ) → IsIn bits.new v ↔ (IsIn bits.old v ⊎ ((v ≡ at) × (v < length bits.old))) }
{
    if at < bits.len() {
        bits[at] = true;
    }
}

/// Whether a bit is set.
pub fn has_bit(bits: &[bool], at: usize) -> bool
    ensures { IsTrue result ↔ IsIn bits.now at }
{
    at < bits.len() && bits[at]
}
