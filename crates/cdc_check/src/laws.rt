//! What holds of the answer for units.

ghost use Rattle.cdc_check.specs.Laws.{DependsOnPlainUnits};

/// What is answered for units depends on the units without pointers alone.
pub fn pointerless()
    ensures { DependsOnPlainUnits }
{}
