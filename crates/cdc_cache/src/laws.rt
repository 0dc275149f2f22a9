//! The law of hits.

ghost use Rattle.cdc_cache.specs.Sides.{HitsGiveMemory};

use cdc_scheme::Scheme;

/// Over calls in order each load that is counted as a hit gives memory's value, though a copy served it. Where `plain` holds
/// this is so over every list of calls.
pub fn hits_give_memory<S: Scheme>()
    ensures { HitsGiveMemory S.Scheme }
{}
