//! Pieces that are gathered before a sink is handed them.

ghost use Rattle.std.specs.Prelude.{◌≡◌, ◌++◌, [], OnOk, OnErr};
ghost use Rattle.cdc_base.specs.Causes.{HasCause};
ghost use Rattle.cdc_base.specs.Gathered.{waiting, HandsOn};
ghost use Rattle.cdc_base.specs.Outside.{grown, GrewInPart};

use crate::{Sink, SinkFault, put_all};
use arrayvec::ArrayVec;

/// Bytes that wait for a sink, at most 4,096 of them, so that many small pieces make one call.
///
/// They stand behind what the sink took; whoever gathers for a sink hands it nothing beside.
#[derive(Drop)]
pub struct Gathered {
    held: ArrayVec<u8, 4096>,
}

impl Gathered {
    /// Nothing waits.
    pub fn new() -> Gathered
        ensures { waiting result ≡ [] }
    {
        Gathered {
            held: ArrayVec::new(),
        }
    }

    /// Puts a piece behind what waits. Where there is no room for it the sink is handed what waits, and a piece that is
    /// longer than the room then too.
    ///
    /// # Errors
    ///
    /// A failure of the sink, when it had taken a front of what waited and the piece. Nothing waits then.
    #[inline(always)]
    pub fn put<K: Sink>(&mut self, out: &mut K, piece: &[u8]) -> Result<(), SinkFault>
        ensures ok { OnOk result (HandsOn (K.taken out.old) (K.taken out.new) (waiting self.old ++ piece.now) (waiting self.new)) }
        ensures failed { OnErr result (GrewInPart (K.taken out.old) (K.taken out.new) (waiting self.old ++ piece.now)) }
        ensures lost { OnErr result (waiting self.new ≡ []) }
        ensures cause { HasCause (K.faults out.old) (K.faults out.new) result }
    {
        if self.held.try_extend_from_slice(piece).is_ok() {
            return Ok(());
        }
        self.put_behind(out, piece)
    }

    // Hands on what waits, and then puts a piece there, or hands it on, too, where it is longer than the room.
    #[inline(never)]
    fn put_behind<K: Sink>(&mut self, out: &mut K, piece: &[u8]) -> Result<(), SinkFault>
        ensures ok { OnOk result (HandsOn (K.taken out.old) (K.taken out.new) (waiting self.old ++ piece.now) (waiting self.new)) }
        ensures failed { OnErr result (GrewInPart (K.taken out.old) (K.taken out.new) (waiting self.old ++ piece.now)) }
        ensures lost { OnErr result (waiting self.new ≡ []) }
        ensures cause { HasCause (K.faults out.old) (K.faults out.new) result }
    {
        self.flush(out)?;
        if self.held.try_extend_from_slice(piece).is_ok() {
            return Ok(());
        }
        put_all(out, piece)
    }

    /// Hands all that waits to the sink. Nothing waits then, also where the sink failed.
    ///
    /// # Errors
    ///
    /// A failure of the sink, when it had taken a front of what waited.
    pub fn flush<K: Sink>(&mut self, out: &mut K) -> Result<(), SinkFault>
        ensures ok { OnOk result (K.taken out.new ≡ grown (K.taken out.old) (waiting self.old)) }
        ensures empty { waiting self.new ≡ [] }
        ensures failed { OnErr result (GrewInPart (K.taken out.old) (K.taken out.new) (waiting self.old)) }
        ensures cause { HasCause (K.faults out.old) (K.faults out.new) result }
    {
        let handed = put_all(out, self.held.as_slice());
        self.held.clear();
        handed
    }
}
