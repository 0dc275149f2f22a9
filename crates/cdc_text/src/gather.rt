// Texts that are gathered before a sink is handed them.
ghost use Rattle.cdc_base.specs.Gathered.{waiting};
ghost use Rattle.cdc_text.specs.Pieces.{Gathers, text_bytes, texts_bytes};

use crate::text::Text;
use cdc_base::{Gathered, Sink, SinkFault};
use cdc_num::{decimal, decimal_u};

fn gather_words<K: Sink>(
    out: &mut K,
    gathered: &mut Gathered,
    words: &[u8],
) -> Result<(), SinkFault>
    ensures { Gathers words.now result (K.taken out.old) (K.taken out.new) (waiting gathered.old) (waiting gathered.new) (K.faults out.old) (K.faults out.new) }
{
    gathered.put(out, words)
}

fn gather_text<K: Sink>(
    out: &mut K,
    gathered: &mut Gathered,
    text: Text<'_>,
) -> Result<(), SinkFault>
    ensures { Gathers (text_bytes text.entry) result (K.taken out.old) (K.taken out.new) (waiting gathered.old) (waiting gathered.new) (K.faults out.old) (K.faults out.new) }
{
    match text {
        Text::Words(words) => gather_words(out, gathered, words),
        Text::Number(n) => gather_words(out, gathered, decimal_u(n).as_bytes()),
        Text::Whole(n) => gather_words(out, gathered, decimal(n).as_bytes()),
    }
}

/// Puts texts one after another behind those that wait for the sink.
///
/// # Errors
///
/// The sink failed when it had taken a front of what waited and the texts.
pub fn gather_texts<K: Sink>(
    out: &mut K,
    gathered: &mut Gathered,
    texts: &[Text<'_>],
) -> Result<(), SinkFault>
    ensures { Gathers (texts_bytes texts.now) result (K.taken out.old) (K.taken out.new) (waiting gathered.old) (waiting gathered.new) (K.faults out.old) (K.faults out.new) }
{
    for text in texts {
        gather_text(out, gathered, *text)?;
    }
    Ok(())
}
