// Instructions that go on at another place. Where the type of an operand does not hold it, the answer is want of memory:
// that much code needs more memory than there is.
ghost use Rattle.std.specs.Prelude.{◌≡◌, ◌-◌, ◌≤◌, IfOk, pos, neg_ℤ};
ghost use Rattle.cdc_code.specs.declared.instr.Instr.TheVariants.{Jump, Jumpz, Dotest, Fork};

use cdc_base::NoMemory;
use cdc_code::Instr;

// The operand of a jump forward.
fn distance(from: usize, to: usize) -> Result<i32, NoMemory>
    requires { from ≤ to }
    ensures { IfOk result (λ d. d ≡ pos (to - from)) }
{
    if to - from > i32::MAX as usize {
        return Err(NoMemory);
    }
    Ok((to - from) as i32)
}

/// A jump forward.
///
/// # Errors
///
/// Want of memory.
pub fn jump(from: usize, to: usize) -> Result<Instr, NoMemory>
    requires { from ≤ to }
    ensures { IfOk result (λ i. i ≡ Jump (pos (to - from))) }
{
    Ok(Instr::Jump(distance(from, to)?))
}

/// A jump back.
///
/// # Errors
///
/// Want of memory.
pub fn jump_back(from: usize, to: usize) -> Result<Instr, NoMemory>
    requires { to ≤ from }
    ensures { IfOk result (λ i. i ≡ Jump (neg_ℤ (pos (from - to)))) }
{
    Ok(Instr::Jump(-distance(to, from)?))
}

/// A jump forward where a condition does not hold.
///
/// # Errors
///
/// Want of memory.
pub fn jump_if_zero(from: usize, to: usize) -> Result<Instr, NoMemory>
    requires { from ≤ to }
    ensures { IfOk result (λ i. i ≡ Jumpz (pos (to - from))) }
{
    Ok(Instr::Jumpz(distance(from, to)?))
}

/// The test of a loop, with the place behind the loop.
///
/// # Errors
///
/// Want of memory.
pub fn loop_test(from: usize, to: usize) -> Result<Instr, NoMemory>
    requires { from ≤ to }
    ensures { IfOk result (λ i. i ≡ Dotest (pos (to - from))) }
{
    Ok(Instr::Dotest(distance(from, to)?))
}

/// The fork of the DOALL of this number, with the place behind its iterations.
///
/// # Errors
///
/// Want of memory.
pub fn fork(number: u32, from: usize, to: usize) -> Result<Instr, NoMemory>
    requires { from ≤ to }
    ensures { IfOk result (λ i. i ≡ Fork number (pos (to - from))) }
{
    Ok(Instr::Fork(number, distance(from, to)?))
}
