//! Tests of the tokens and the logical lines of sources.
//!
//! The crate has tests alone.
#![tactic(auto)]

#[cfg(test)]
mod tests;
