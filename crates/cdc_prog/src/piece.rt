// What a program prints at once, and its bytes.
ghost use Rattle.std.specs.Prelude.{◌≡◌, ◌++◌, length, OnOk, OnErr};
ghost use Rattle.cdc_base.specs.Gathered.{waiting, HandsOn};
ghost use Rattle.cdc_base.specs.Outside.{GrewInPart};
ghost use Rattle.cdc_base.specs.Causes.{HasCause};
ghost use Rattle.cdc_prog.specs.Lines.{opened};
ghost use Rattle.cdc_prog.specs.Meaning.{bytes_of_piece};
ghost use Rattle.cdc_prog.specs.Pieces.{IsThere};

use cdc_base::{Gathered, List, Sink, SinkFault};
use cdc_num::decimal;

/// What is printed at once.
#[derive(Clone, Copy, Debug, PartialEq, Eq)]
pub enum Piece {
    /// A number, by its decimal text.
    Number(i64),
    Space,
    /// A text of the program, by its number from 0.
    Text(u32),
    LineEnd,
}

/// Puts the bytes of a piece behind those that wait for the sink.
///
/// # Errors
///
/// The sink failed when it had taken a proper front of what waited and the piece. Nothing waits then.
pub fn put_piece<K: Sink>(
    out: &mut K,
    gathered: &mut Gathered,
    texts: &[List<u8>],
    piece: Piece,
) -> Result<(), SinkFault>
    requires { IsThere (length texts.now) piece }
    ensures ok { OnOk result (HandsOn (K.taken out.old) (K.taken out.new) (waiting gathered.old ++ bytes_of_piece texts.now piece) (waiting gathered.new)) }
    ensures failed { OnErr result (GrewInPart (K.taken out.old) (K.taken out.new) (waiting gathered.old ++ bytes_of_piece texts.now piece)) }
    ensures cause { HasCause (K.faults out.old) (K.faults out.new) result }
{
    match piece {
        Piece::Number(value) => gathered.put(out, decimal(value).as_bytes()),
        Piece::Space => gathered.put(out, b" "),
        Piece::Text(number) => gathered.put(out, texts[number as usize].as_slice()),
        Piece::LineEnd => gathered.put(out, b"\n"),
    }
}

/// Whether a line is open behind a piece, where `before` says whether it is before it.
pub fn opens(texts: &[List<u8>], piece: Piece, before: bool) -> bool
    requires { IsThere (length texts.now) piece }
    ensures { result ≡ opened before (bytes_of_piece texts.now piece) }
{
    match piece {
        Piece::Number(_) | Piece::Space => true,
        Piece::Text(number) => match texts[number as usize].as_slice().last() {
            Some(byte) => *byte != b'\n',
            None => before,
        },
        Piece::LineEnd => false,
    }
}
