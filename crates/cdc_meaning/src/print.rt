// PRINT.
ghost use Rattle.std.specs.Prelude.{◌≡◌, [], false, length, map};
ghost use Rattle.std.specs.List.{All};
ghost use Rattle.cdc_base.specs.Gathered.{waiting};
ghost use Rattle.cdc_prog.specs.Pieces.{IsThere};
ghost use Rattle.cdc_prog.specs.Process.{Say};
ghost use Rattle.cdc_prog.specs.Resolved.{ItemFits};
ghost use Rattle.cdc_prog.specs.Statements.{gap};
ghost use Rattle.cdc_prog.specs.Translation.{item_of};
ghost use Rattle.cdc_meaning.specs.Frames.{shapes_of, IsPlaced};
ghost use Rattle.cdc_meaning.specs.Carried.{output_of, Says, ShowsItem, ShowsItems};

use crate::expr::value;
use crate::frame::Frame;
use cdc_base::{Gathered, List, Sink};
use cdc_prog::{Item, Piece, Stop, opens, put_piece};

/// What a program printed and the sink was not handed yet, and whether the line that was printed last is open.
#[derive(Drop)]
pub struct Page {
    pub gathered: Gathered,
    /// Bytes stand behind the last line end that was printed.
    pub is_open: bool,
}

impl Page {
    /// Nothing was printed.
    pub fn new() -> Page
        ensures gathered { waiting result.gathered ≡ [] }
        ensures shut { result.is_open ≡ false }
    {
        Page {
            gathered: Gathered::new(),
            is_open: false,
        }
    }
}

// Writes a piece, and keeps whether a line is open behind it.
fn say<K: Sink>(out: &mut K, page: &mut Page, texts: &[List<u8>], piece: Piece) -> Result<(), Stop>
    requires { IsThere (length texts.now) piece }
    ensures { Says texts.now (Say piece) (output_of (K.taken out.old) page.old (K.faults out.old)) result (output_of (K.taken out.new) page.new (K.faults out.new)) }
{
    put_piece(out, &mut page.gathered, texts, piece)?;
    page.is_open = opens(texts, piece, page.is_open);
    Ok(())
}

// Writes a piece, behind a space where it is not the first of its line.
fn write<K: Sink>(
    out: &mut K,
    page: &mut Page,
    texts: &[List<u8>],
    first: bool,
    piece: Piece,
) -> Result<(), Stop>
    requires { IsThere (length texts.now) piece }
    ensures { Says texts.now (λ rest. gap first (Say piece rest)) (output_of (K.taken out.old) page.old (K.faults out.old)) result (output_of (K.taken out.new) page.new (K.faults out.new)) }
{
    if first {
        return say(out, page, texts, piece);
    }
    say(out, page, texts, Piece::Space)?;
    say(out, page, texts, piece)
}

// Evaluates an item, and writes it behind the space.
fn show<K: Sink>(
    frame: &Frame,
    words: &[i64],
    slots: &[i64],
    out: &mut K,
    page: &mut Page,
    line: u32,
    first: bool,
    item: &Item,
) -> Result<(), Stop>
    requires placed { IsPlaced frame.now }
    requires room { length words.now ≡ frame.now.program.now.words }
    requires fits { ItemFits frame.now.program.now.objects (shapes_of frame.now) (length slots.now) (length frame.now.program.now.texts) (item_of item.now) }
    ensures { ShowsItem frame.now words.now slots.now line first (item_of item.now) (output_of (K.taken out.old) page.old (K.faults out.old))
        result (output_of (K.taken out.new) page.new (K.faults out.new)) }
{
    let texts = frame.program.texts.as_slice();
    match item {
        Item::Text(number) => write(out, page, texts, first, Piece::Text(*number)),
        Item::Value(e) => {
            let v = value(frame, words, slots, line, e)?;
            write(out, page, texts, first, Piece::Number(v))
        }
    }
}

/// Prints items (ISO/IEC 1539:1991, section 9.4): each is evaluated, and then the space between
/// items and the item are written; at the end the line ends.
///
/// # Errors
///
/// The first fault, at the line; a failure of the sink.
pub fn print<K: Sink>(
    frame: &Frame,
    words: &[i64],
    slots: &[i64],
    out: &mut K,
    page: &mut Page,
    line: u32,
    shown: &[Item],
) -> Result<(), Stop>
    requires placed { IsPlaced frame.now }
    requires room { length words.now ≡ frame.now.program.now.words }
    requires fits { All (λ i. ItemFits frame.now.program.now.objects (shapes_of frame.now) (length slots.now) (length frame.now.program.now.texts) (item_of i)) shown.now }
    ensures { ShowsItems frame.now words.now slots.now line (map item_of shown.now) (output_of (K.taken out.old) page.old (K.faults out.old))
        result (output_of (K.taken out.new) page.new (K.faults out.new)) }
{
    let mut first = true;
    for item in shown {
        show(frame, words, slots, out, page, line, first, item)?;
        first = false;
    }
    say(out, page, frame.program.texts.as_slice(), Piece::LineEnd)
}
