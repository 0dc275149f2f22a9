//! Tests of the commands over stores and sinks in memory.
//!
//! The crate has tests alone.
#![tactic(auto)]

#[cfg(test)]
mod commands;
#[cfg(test)]
mod sources;
