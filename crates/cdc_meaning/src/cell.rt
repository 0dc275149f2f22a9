// Cells: slots of an iteration and words of memory.
ghost use Rattle.std.specs.Prelude.{◌≡◌, ℕ, length};
ghost use Rattle.cdc_prog.specs.Expressions.{scalar_of};
ghost use Rattle.cdc_prog.specs.Held.{store_of};
ghost use Rattle.cdc_prog.specs.Resolved.{IsScalar};
ghost use Rattle.cdc_meaning.specs.Frames.{shapes_of, binding, IsPlaced};
ghost use Rattle.cdc_meaning.specs.Cells.{reached, IsWithin, Fetches, Keeps};

use crate::frame::Frame;
use cdc_prog::Var;

/// Where a value stands.
#[derive(Clone, Copy)]
pub enum Cell {
    /// A slot of the iteration.
    Slot(u32),
    /// A word of memory.
    Word(u32),
}

/// The cell of a scalar.
#[inline(always)]
pub fn scalar(frame: &Frame, slots: &[i64], var: Var) -> Cell
    requires placed { IsPlaced frame.now }
    requires known { IsScalar frame.now.program.now.objects (shapes_of frame.now) (length slots.now) var }
    ensures cell { (site : ℕ) → reached (binding frame.now).path site result ≡ scalar_of (binding frame.now) site var }
    ensures within { IsWithin frame.now.program.now.words (length slots.now) result }
{
    match var {
        Var::Slot(k) => Cell::Slot(k),
        Var::Object(_) | Var::Dummy(_) => Cell::Word(frame.word(var, 0)),
    }
}

/// The value of a cell.
#[inline(always)]
pub fn fetch(words: &[i64], slots: &[i64], cell: Cell) -> i64
    requires { IsWithin (length words.now) (length slots.now) cell }
    ensures { Fetches cell slots.now (store_of words.now) result }
{
    match cell {
        Cell::Slot(k) => slots[k as usize],
        Cell::Word(w) => words[w as usize],
    }
}

/// Stores a value in a cell.
#[inline(always)]
pub fn keep(words: &mut [i64], slots: &mut [i64], cell: Cell, value: i64)
    requires { IsWithin (length words.old) (length slots.old) cell }
    ensures { Keeps cell value slots.old (store_of words.old) slots.new (store_of words.new) }
{
    match cell {
        Cell::Slot(k) => slots[k as usize] = value,
        Cell::Word(w) => words[w as usize] = value,
    }
}
