use cdc_base::{List, Place};

/// A symbol of the language. A relation is one symbol in either spelling, as `==` and `.EQ.`.
#[derive(Clone, Copy, Debug, PartialEq, Eq)]
pub enum Symbol {
    LeftParen,
    RightParen,
    Comma,
    Colon,
    DoubleColon,
    Assign,
    Plus,
    Minus,
    Star,
    Slash,
    Eq,
    Ne,
    Lt,
    Le,
    Gt,
    Ge,
    Not,
    And,
    Or,
}

/// A lexical token (ISO/IEC 1539:1991, section 3.2).
#[derive(Debug, Drop)]
pub enum Token {
    /// A name or a reserved word, in upper case.
    Name(List<u8>),
    Number(i64),
    /// A text without its quotes, each doubled quote as one.
    Text(List<u8>),
    Symbol(Symbol),
}

/// A token and the place of its first byte.
#[derive(Debug, Drop)]
pub struct Lexed {
    pub token: Token,
    pub place: Place,
}

/// Why a source has no tokens, with the place of the byte.
#[derive(Clone, Copy, Debug, PartialEq, Eq)]
pub enum LexRefusal {
    /// A byte that begins no token, or one in a text that is neither printable ASCII nor tab.
    BadByte(Place),
    /// A text that does not end on its line; the place of its quote.
    OpenText(Place),
    /// A name of more than 31 characters.
    NameLong(Place),
    /// A number over `2^63 - 1`.
    NumberWide(Place),
    /// A line of more than 132 bytes; the place of the next.
    LineLong(Place),
    Memory,
}
