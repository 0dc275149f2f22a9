//! Tests of regular sections: each step of a triplet, and where two sections overlap.
//!
//! The crate has tests alone.
#![tactic(auto)]

#[cfg(test)]
mod sections;
