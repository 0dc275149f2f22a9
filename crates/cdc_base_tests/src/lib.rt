//! Tests of the lowest crates: lists, stores and sinks of `cdc_base`, and the arithmetic of `cdc_num`.
//!
//! The crate has tests alone.
#![tactic(auto)]

#[cfg(test)]
mod numbers;
#[cfg(test)]
mod outside;
