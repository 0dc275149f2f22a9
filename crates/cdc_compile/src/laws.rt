//! What holds of the answers to a source.

ghost use Rattle.cdc_compile.specs.Laws.{HasOneAnswer, IsCompiledOnce, AcceptedIsSound};

/// Want of memory aside, a source has one answer, and what it is compiled to is one.
pub fn one_answer()
    ensures answer { HasOneAnswer }
    ensures compiled { IsCompiledOnce }
{}

/// The code of an accepted source is sound. No two references of its program have one site, and its tasks keep to the paths,
/// the sections and the covers by which its marks are defined.
pub fn accepted_sources()
    ensures { AcceptedIsSound }
{}
