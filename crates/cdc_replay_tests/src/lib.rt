//! Runs of the machine on a memory side of the tests' own, which keeps the calls that are made on it.
//!
//! The crate has tests alone. They show that the machine takes any memory side, and that the calls on it are those that the
//! events make: these, the outputs and the counts follow from the rules of `docs/FORMATS.md` and from the code of the
//! program, and were worked out by hand. What random events make was worked out by a simulator of these rules alone.
#![tactic(auto)]

#[cfg(test)]
mod orders;
#[cfg(test)]
mod runs;
#[cfg(test)]
mod tests;
#[cfg(test)]
mod watched;
