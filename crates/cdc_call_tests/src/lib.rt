//! Calls that no command makes: the code of a CALL, which sources do not have yet, and a program or a code that is carried
//! out by itself. The programs and codes are built by hand.
//!
//! The crate has tests alone.
#![tactic(auto)]

#[cfg(test)]
mod carried_out;
#[cfg(test)]
mod code;
#[cfg(test)]
mod emitted;
