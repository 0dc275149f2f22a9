//! The tokens and logical lines of a source in free form (ISO/IEC 1539:1991, section 3.3.1).
#![tactic(auto)]

mod bytes;
mod closing;
mod fault;
mod gathered;
mod line;
mod lines;
mod logical;
mod meaning;
mod physical;
mod piece;
mod spelling;
mod token;
mod value;

pub use lines::{Line, Lines, LinesFrom};
pub use logical::logical_lines;
pub use token::{LexRefusal, Lexed, Symbol, Token};
