//! No caches: every read goes to memory.

ghost use Rattle.std.specs.Prelude.{◌≡◌, Bool, true, false, None};

use crate::Scheme;
use cdc_base::NoMemory;
use cdc_prog::Mark;
use std::alloc::Global;

/// The scheme without caches: no line is kept, so no copy can be stale. No read may use a copy, and none stays valid.
pub struct Direct;

impl Scheme for Direct {
    type Word = ();

    type State = ();

    ghost has_caches = { false };

    ghost fits_width = { λ width. Unit {0} };

    ghost starts = { λ width count state. Unit {0} };

    ghost has_object = { λ state object. true };

    ghost target_of = { λ state object old. tt };

    ghost neighbour_of = { λ state object old. tt };

    ghost wrote_of = { λ state object. tt };

    ghost admits_of = { λ state object mark word. false };

    ghost keeps_of = { λ state written object word. None };

    ghost closes = { λ state written after. Unit {0} };

    ghost knows = { λ state lists objects. Unit {0} };

    ghost dates = { λ state lists objects object word made. Unit {0} };

    ghost knows_start = { λ width count state start. tt };

    ghost knows_write = { λ state lists objects other known. tt };

    ghost knows_boundary = { λ state after lists objects written known covers closes. tt };

    ghost dates_write = { λ state lists objects other object made word dated. tt };

    ghost dates_target = { λ state lists objects object before old known dated. tt };

    ghost dates_neighbour = { λ state lists objects object before old known dated. tt };

    ghost dates_wrote = { λ state lists objects object known. tt };

    ghost first = { λ state lists objects object made d word known dated some admitted. absurd (Prim.cc admitted) };

    ghost second = { λ state after lists objects written object made word kept known covers dated keeps closes. absurd (Prim.cc keeps) };

    fn start(_alloc: Global, _width: u32, _objects: u32) -> Result<(), NoMemory> {
        Ok(())
    }

    fn caches() -> bool {
        false
    }

    fn target(_state: &(), _object: u32, _old: Option<()>)
        ensures { result ≡ tt }
    {}

    fn neighbour(_state: &(), _object: u32, _old: Option<()>)
        ensures { result ≡ tt }
    {}

    fn wrote(_state: &(), _object: u32) {}

    fn admits(_state: &(), _object: u32, _mark: Mark, _word: ()) -> bool {
        false
    }

    fn keeps(_state: &(), _written: &[u32], _object: u32, _word: ()) -> Option<()> {
        None
    }

    fn boundary(_state: &mut (), _written: &[u32]) {}
}
