use cdc_prog::{Mark, Var};

/// An instruction of a task, which has a stack of 64-bit numbers, and beside it slots, open loops and call frames. A
/// variable is an object or a dummy; a site numbers a memory access, from 1; the operand of a jump is added to the
/// place of the instruction itself.
#[derive(Clone, Copy, Debug, PartialEq, Eq)]
pub enum Instr {
    /// Pushes a number.
    Const(i64),
    /// Pushes a slot, by its number from 0.
    Local(u32),
    /// Pops a value into a slot.
    Setlocal(u32),
    /// Pops one subscript for each dimension of an array and pushes the number of the element from 0; the fault
    /// subscript where one is outside its bounds.
    Index(Var),
    /// Pushes the word of a scalar, read at a site with a mark.
    Load(Var, u32, Mark),
    /// Pops the number of an element and pushes its word, read at a site with a mark.
    Loade(Var, u32, Mark),
    /// Pops a value and writes it to a scalar at a site.
    Store(Var, u32),
    /// Pops a value and the number of an element, and writes the value there at a site.
    Storee(Var, u32),
    /// Negates the top; the fault overflow.
    Neg,
    /// The magnitude of the top; the fault overflow.
    Abs,
    /// 1 where the top is 0, and 0 elsewhere.
    Not,
    /// Pops b, pops a, pushes a + b; the fault overflow. So with the other operators of two operands.
    Add,
    Sub,
    Mul,
    /// The quotient towards 0; the faults overflow and zero divisor.
    Div,
    /// The remainder with the sign of a; the fault zero divisor.
    Mod,
    Min,
    Max,
    /// 1 where a equals b, and 0 elsewhere. So with the other relations.
    Eq,
    Ne,
    Lt,
    Le,
    Gt,
    Ge,
    /// 1 where both are other than 0, and 0 elsewhere.
    And,
    /// 1 where one is other than 0, and 0 elsewhere.
    Or,
    /// Goes on at a place.
    Jump(i32),
    /// Pops a value and goes on at a place where it is 0.
    Jumpz(i32),
    /// Pops the step, the limit and the first value of a loop, opens it with its number of turns, and pushes the first
    /// value; the fault zero step.
    Doinit,
    /// Closes the innermost loop and goes on at a place where no turn is left, else begins a turn.
    Dotest(i32),
    /// Adds the step of the innermost loop to the top; the fault overflow.
    Doadd,
    /// Pushes the next value of the input; the fault input ended.
    Take,
    /// Skips the rest of the record; the fault input ended.
    RecordEnd,
    /// Pops a number and prints it in decimal.
    Put,
    /// Prints a space.
    Gap,
    /// Prints a text of the program, by its number from 0.
    Text(u32),
    /// Prints a line end.
    Line,
    /// Adds the object for which a variable stands to the arguments that are being gathered.
    Arg(Var),
    /// Calls a unit with the gathered arguments, by its number from 0.
    Call(u32),
    /// Goes back to where the unit was called.
    Return,
    /// Pops the step, the limit and the first index of a DOALL, whose number from 1 is given, and ends the serial
    /// task; the faults zero step and trip too large. The iterations begin at the next instruction, and serial code
    /// goes on at a place.
    Fork(u32, i32),
    /// Ends an iteration.
    Join,
    /// Ends the program.
    Halt,
}

/// An instruction and the line of its statement, 0 where it belongs to none.
#[derive(Clone, Copy, Debug, PartialEq, Eq)]
pub struct Step {
    pub instr: Instr,
    pub line: u32,
}
