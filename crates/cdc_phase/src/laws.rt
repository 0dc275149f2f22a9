//! The law of tags.

ghost use Rattle.std.specs.Prelude.{◌≡◌, ℕ, ◌*◌, ◌<◌};
ghost use Rattle.cdc_phase.specs.Tags.{AgesAreTrue};

/// A tag's age is the number of epochs since its copy was right, and never too few: resets keep it below the number of tags.
pub fn ages_are_true()
    ensures { (half all : ℕ) → 0 < half → all ≡ 2 * half → AgesAreTrue half all }
{}
