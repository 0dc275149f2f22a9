//! Short programs on a machine's memory side, as the calls that the machine makes on it: what each load gives, and what
//! is counted.
//!
//! The crate has tests alone. The lists of calls follow from each program's template code, from the marks of its reads
//! and its written lists, and from the processor that runs each task under its schedule. They and the counts were worked
//! out by hand.
#![tactic(auto)]

#[cfg(test)]
mod calls;
#[cfg(test)]
mod programs;
#[cfg(test)]
mod tests;
