//! Texts that are written in pieces: words and decimal numbers, one after another.
#![tactic(auto)]

mod gather;
#[cfg(test)]
mod tests;
mod text;

pub use gather::gather_texts;
pub use text::{Text, write_texts, write_words};
