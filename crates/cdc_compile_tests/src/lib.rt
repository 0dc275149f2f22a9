//! Tests on sources: what is refused, and the units, marks and code of what is accepted.
//!
//! The crate has tests alone.
#![tactic(auto)]

#[cfg(test)]
mod answers;
#[cfg(test)]
mod compiled;
#[cfg(test)]
mod forms;
#[cfg(test)]
mod marks;
