//! What holds of the refusals of names.

ghost use Rattle.cdc_names.specs.Firsts.{FirstsStandFirst};

/// The place that a refusal of names shows stands first among the places where something of its
/// kind is wrong, and a pair of places among such pairs.
pub fn first_places()
    ensures { FirstsStandFirst }
{}
