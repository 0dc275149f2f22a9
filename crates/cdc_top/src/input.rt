// What `seq` and `run` say of an input that is refused.
ghost use Rattle.cdc_top.specs.Answer.{Said};
ghost use Rattle.cdc_top.specs.Sequential.{input_bad, input_too_long};

use crate::status::{INPUT_REFUSED, WRITE_FAULT};
use cdc_base::{Place, Sink};
use cdc_text::{Text, write_texts, write_words};

/// Tells where an input is no input.
pub fn say_bad_input<K: Sink>(place: Place, out: &mut K) -> u8
    ensures { Said (input_bad place) result (K.taken out.old) (K.taken out.new) (K.faults out.old) (K.faults out.new) }
{
    let texts = [
        Text::Words(b"refused input at "),
        Text::Number(place.line as u64),
        Text::Words(b":"),
        Text::Number(place.column as u64),
        Text::Words(b"\n"),
    ];
    match write_texts(out, &texts) {
        Ok(()) => INPUT_REFUSED,
        Err(_) => WRITE_FAULT,
    }
}

/// Tells that an input is over its limit.
pub fn say_long_input<K: Sink>(out: &mut K) -> u8
    ensures { Said input_too_long result (K.taken out.old) (K.taken out.new) (K.faults out.old) (K.faults out.new) }
{
    match write_words(out, b"refused input over 1048576 bytes\n") {
        Ok(()) => INPUT_REFUSED,
        Err(_) => WRITE_FAULT,
    }
}
