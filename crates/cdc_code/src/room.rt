/// How many numbers the stack of a task can hold. At most 64 parentheses are open at a place of a source, and in each of
/// them at most four numbers wait: a term, a factor, and two subscripts.
pub const STACK: usize = 512;

/// How many DO loops of one unit can be open at a place, as many as blocks.
pub const NEST: usize = 64;

/// How many units a program can have, and so how many can be carried out at once, each called by the one before it.
pub const DEPTH: usize = 64;

/// How many DO loops a task can have open, over all units that are carried out.
pub const LOOPS: usize = 4096;

/// How many arguments a CALL can have, as many as a unit has dummies.
pub const ARGUMENTS: usize = 32;

/// How many slots an iteration can have: its index and its private scalars.
pub const SLOTS: usize = 33;
