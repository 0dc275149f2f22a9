//! The texts of refusals.

ghost use Rattle.std.specs.Prelude.{◌≡◌};
ghost use Rattle.cdc_text.specs.Pieces.{Wrote};
ghost use Rattle.cdc_compile.specs.Refusals.{IsNamed};
ghost use Rattle.cdc_compile.specs.Texts as t;

use crate::refusal::Refusal;
use cdc_base::{Place, Sink, SinkFault};
use cdc_check::CheckRefusal;
use cdc_prog::{Kind, limit};
use cdc_text::{Text, write_texts};
use cdc_token::LexRefusal;
use cdc_tree::ParseRefusal;

fn write_place<K: Sink>(out: &mut K, name: &[u8], place: Place) -> Result<(), SinkFault>
    ensures { Wrote (t.at_place name.now place) result (K.taken out.old) (K.taken out.new) (K.faults out.old) (K.faults out.new) }
{
    write_texts(
        out,
        &[
            Text::Words(b"refused "),
            Text::Words(name),
            Text::Words(b" at "),
            Text::Number(place.line as u64),
            Text::Words(b":"),
            Text::Number(place.column as u64),
            Text::Words(b"\n"),
        ],
    )
}

fn write_places<K: Sink>(
    out: &mut K,
    name: &[u8],
    first: Place,
    second: Place,
) -> Result<(), SinkFault>
    ensures { Wrote (t.at_places name.now first second) result (K.taken out.old) (K.taken out.new) (K.faults out.old) (K.faults out.new) }
{
    write_texts(
        out,
        &[
            Text::Words(b"refused "),
            Text::Words(name),
            Text::Words(b" at "),
            Text::Number(first.line as u64),
            Text::Words(b":"),
            Text::Number(first.column as u64),
            Text::Words(b" and "),
            Text::Number(second.line as u64),
            Text::Words(b":"),
            Text::Number(second.column as u64),
            Text::Words(b"\n"),
        ],
    )
}

fn write_line<K: Sink>(out: &mut K, name: &[u8], line: u32) -> Result<(), SinkFault>
    ensures { Wrote (t.at_line name.now line) result (K.taken out.old) (K.taken out.new) (K.faults out.old) (K.faults out.new) }
{
    write_texts(
        out,
        &[
            Text::Words(b"refused "),
            Text::Words(name),
            Text::Words(b" at line "),
            Text::Number(line as u64),
            Text::Words(b"\n"),
        ],
    )
}

fn kind_words(kind: Kind) -> &'static [u8]
    ensures { result.now ≡ t.kind_text kind }
{
    match kind {
        Kind::Source => b"source",
        Kind::Units => b"units",
        Kind::Dummies => b"dummies",
        Kind::Privates => b"privates",
        Kind::Objects => b"objects",
        Kind::Words => b"words",
        Kind::Sites => b"sites",
        Kind::Paths => b"paths",
    }
}

fn write_limit<K: Sink>(out: &mut K, kind: Kind) -> Result<(), SinkFault>
    ensures { Wrote (t.over_limit kind) result (K.taken out.old) (K.taken out.new) (K.faults out.old) (K.faults out.new) }
{
    write_texts(
        out,
        &[
            Text::Words(b"refused TooMany "),
            Text::Words(kind_words(kind)),
            Text::Words(b" limit "),
            Text::Number(limit(kind)),
            Text::Words(b"\n"),
        ],
    )
}

fn write_lex<K: Sink>(out: &mut K, refusal: LexRefusal) -> Result<(), SinkFault>
    ensures { Wrote (t.lex_text refusal) result (K.taken out.old) (K.taken out.new) (K.faults out.old) (K.faults out.new) }
{
    match refusal {
        LexRefusal::BadByte(place) => write_place(out, b"BadByte", place),
        LexRefusal::OpenText(place) => write_place(out, b"OpenText", place),
        LexRefusal::NameLong(place) => write_place(out, b"NameLong", place),
        LexRefusal::NumberWide(place) => write_place(out, b"NumberWide", place),
        LexRefusal::LineLong(place) => write_place(out, b"LineLong", place),
        LexRefusal::Memory => Ok(()),
    }
}

fn write_parse<K: Sink>(out: &mut K, refusal: ParseRefusal) -> Result<(), SinkFault>
    ensures { Wrote (t.parse_text refusal) result (K.taken out.old) (K.taken out.new) (K.faults out.old) (K.faults out.new) }
{
    match refusal {
        ParseRefusal::NotAStatement(line) => write_line(out, b"NotAStatement", line),
        ParseRefusal::Depth(line) => write_line(out, b"Depth", line),
        ParseRefusal::Nesting(line) => write_line(out, b"Nesting", line),
        ParseRefusal::Memory => Ok(()),
    }
}

fn write_check<K: Sink>(out: &mut K, refusal: CheckRefusal) -> Result<(), SinkFault>
    ensures { Wrote (t.check_text refusal) result (K.taken out.old) (K.taken out.new) (K.faults out.old) (K.faults out.new) }
{
    match refusal {
        CheckRefusal::Undeclared(place) => write_place(out, b"Undeclared", place),
        CheckRefusal::Duplicate(first, second) => write_places(out, b"Duplicate", first, second),
        CheckRefusal::NotConstant(place) => write_place(out, b"NotConstant", place),
        CheckRefusal::Shape(place) => write_place(out, b"Shape", place),
        CheckRefusal::DoVariable(place) => write_place(out, b"DoVariable", place),
        CheckRefusal::DoallBody(place) => write_place(out, b"DoallBody", place),
        CheckRefusal::NotPrivate(place) => write_place(out, b"NotPrivate", place),
        CheckRefusal::NoUnit(place) => write_place(out, b"NoUnit", place),
        CheckRefusal::Arguments(place) => write_place(out, b"Arguments", place),
        CheckRefusal::ActualNotVariable(place) => write_place(out, b"ActualNotVariable", place),
        CheckRefusal::Recursive(place) => write_place(out, b"Recursive", place),
        CheckRefusal::Aliased(first, second) => write_places(out, b"Aliased", first, second),
        CheckRefusal::TooMany(kind) => write_limit(out, kind),
        CheckRefusal::Memory => Ok(()),
    }
}

/// Writes the text of a refusal, one line: its name, and the place, the two places, the line, or the quantity and its limit.
///
/// Want of memory has no text.
pub fn write_refusal<K: Sink>(refusal: &Refusal, out: &mut K) -> Result<(), SinkFault>
    requires { IsNamed refusal.now }
    ensures { Wrote (t.refusal_text refusal.now) result (K.taken out.old) (K.taken out.new) (K.faults out.old) (K.faults out.new) }
{
    match *refusal {
        Refusal::Lex(refusal) => write_lex(out, refusal),
        Refusal::Parse(refusal) => write_parse(out, refusal),
        Refusal::Check(refusal) => write_check(out, refusal),
        Refusal::Conflict(first, second) => write_places(out, b"Conflict", first, second),
        Refusal::Memory => Ok(()),
    }
}
