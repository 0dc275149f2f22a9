ghost use Rattle.std.specs.Prelude.{◌≡◌};
ghost use Rattle.cdc_names.specs.Places.{before, sooner, at};

use cdc_base::Place;

/// Whether a place stands before another.
pub fn is_before(p: Place, q: Place) -> bool
    ensures { result ≡ before p q }
{
    if p.line == q.line {
        return p.column < q.column;
    }
    p.line < q.line
}

/// The place that stands first, where there is one.
pub fn sooner(a: Option<Place>, b: Option<Place>) -> Option<Place>
    ensures { result ≡ sooner a b }
{
    match (a, b) {
        (None, b) => b,
        (Some(p), None) => Some(p),
        (Some(p), Some(q)) => {
            if is_before(q, p) {
                return Some(q);
            }
            Some(p)
        }
    }
}

/// A place where something is wrong.
pub fn place_if(wrong: bool, place: Place) -> Option<Place>
    ensures { result ≡ at wrong place }
{
    if wrong { Some(place) } else { None }
}
