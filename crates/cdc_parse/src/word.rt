//! Reserved words.

ghost use Rattle.std.specs.Prelude.{◌≡◌};
ghost use Rattle.cdc_parse.specs.Words.{spelling, word_named, same_word};

/// A reserved word, which is no name.
#[derive(Clone, Copy, Debug, PartialEq, Eq)]
pub enum Word {
    Program,
    Subroutine,
    End,
    EndDo,
    EndIf,
    EndDoall,
    Integer,
    Parameter,
    Implicit,
    /// NONE.
    Nothing,
    Do,
    Doall,
    Private,
    If,
    Then,
    Else,
    ElseIf,
    Call,
    Read,
    Print,
    Abs,
    Min,
    Max,
    Mod,
    Common,
}

const WORDS: [Word; 25] = [
    Word::Program,
    Word::Subroutine,
    Word::End,
    Word::EndDo,
    Word::EndIf,
    Word::EndDoall,
    Word::Integer,
    Word::Parameter,
    Word::Implicit,
    Word::Nothing,
    Word::Do,
    Word::Doall,
    Word::Private,
    Word::If,
    Word::Then,
    Word::Else,
    Word::ElseIf,
    Word::Call,
    Word::Read,
    Word::Print,
    Word::Abs,
    Word::Min,
    Word::Max,
    Word::Mod,
    Word::Common,
];

fn spelling(word: Word) -> &'static [u8]
    ensures { result.now ≡ spelling word }
{
    match word {
        Word::Program => b"PROGRAM",
        Word::Subroutine => b"SUBROUTINE",
        Word::End => b"END",
        Word::EndDo => b"ENDDO",
        Word::EndIf => b"ENDIF",
        Word::EndDoall => b"ENDDOALL",
        Word::Integer => b"INTEGER",
        Word::Parameter => b"PARAMETER",
        Word::Implicit => b"IMPLICIT",
        Word::Nothing => b"NONE",
        Word::Do => b"DO",
        Word::Doall => b"DOALL",
        Word::Private => b"PRIVATE",
        Word::If => b"IF",
        Word::Then => b"THEN",
        Word::Else => b"ELSE",
        Word::ElseIf => b"ELSEIF",
        Word::Call => b"CALL",
        Word::Read => b"READ",
        Word::Print => b"PRINT",
        Word::Abs => b"ABS",
        Word::Min => b"MIN",
        Word::Max => b"MAX",
        Word::Mod => b"MOD",
        Word::Common => b"COMMON",
    }
}

/// The reserved word that is written so.
#[tactic(auto, unfolding(crate::specs::Words::word_named))]
pub(crate) fn word_named(name: &[u8]) -> Option<Word>
    ensures { result ≡ word_named name.now }
{
    WORDS.iter().copied().find(|word| spelling(*word) == name)
}

#[tactic(auto, unfolding(crate::specs::Words::same_word))]
pub(crate) fn same_word(a: Word, b: Word) -> bool
    ensures { result ≡ same_word a b }
{
    a == b
}
