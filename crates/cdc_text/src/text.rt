// Texts that are written in pieces.
ghost use Rattle.std.specs.Prelude.{◌≡◌, ◌++◌};
ghost use Rattle.cdc_text.specs.Pieces.{Wrote, text_bytes, texts_bytes};

use cdc_base::{Sink, SinkFault, put_all};
use cdc_num::{decimal, decimal_u};

/// A piece of a text.
#[derive(Clone, Copy, Debug)]
pub enum Text<'a> {
    Words(&'a [u8]),
    /// A number in decimal.
    Number(u64),
    /// A whole number in decimal, with its sign where it is negative.
    Whole(i64),
}

/// Writes a text.
pub fn write_words<K: Sink>(out: &mut K, words: &[u8]) -> Result<(), SinkFault>
    ensures { Wrote words.now result (K.taken out.old) (K.taken out.new) (K.faults out.old) (K.faults out.new) }
{
    put_all(out, words)
}

fn write_text<K: Sink>(out: &mut K, text: Text<'_>) -> Result<(), SinkFault>
    ensures { Wrote (text_bytes text.entry) result (K.taken out.old) (K.taken out.new) (K.faults out.old) (K.faults out.new) }
{
    match text {
        Text::Words(words) => write_words(out, words),
        Text::Number(n) => write_words(out, decimal_u(n).as_bytes()),
        Text::Whole(n) => write_words(out, decimal(n).as_bytes()),
    }
}

/// Writes texts one after another.
pub fn write_texts<K: Sink>(out: &mut K, texts: &[Text<'_>]) -> Result<(), SinkFault>
    ensures { Wrote (texts_bytes texts.now) result (K.taken out.old) (K.taken out.new) (K.faults out.old) (K.faults out.new) }
{
    for text in texts {
        write_text(out, *text)?;
    }
    Ok(())
}
