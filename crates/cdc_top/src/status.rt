// The statuses that a call of the tool may end with.

/// The run or the program is done, or the program is accepted.
pub const DONE: u8 = 0;

/// The run or the program ended with a fault.
pub const FAULTED: u8 = 1;

/// The words are no command.
pub const NO_COMMAND: u8 = 2;

/// The program is refused.
pub const PROGRAM_REFUSED: u8 = 3;

/// The input or the schedule is refused.
pub const INPUT_REFUSED: u8 = 4;

/// A file could not be read.
pub const READ_FAULT: u8 = 5;

/// The sink failed.
pub const WRITE_FAULT: u8 = 6;

/// Memory ran out, and nothing was written.
pub const OUT_OF_MEMORY: u8 = 7;

/// The run was stopped at its bound.
pub const STOPPED: u8 = 8;
