//! Version control: a version number for each object, and one with each cached word.
#![tactic(auto)]

mod numbers;
#[cfg(test)]
mod tests;
mod version;

pub use numbers::CurrentVersions;
pub use version::Version;
