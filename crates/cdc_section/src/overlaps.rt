// Sections that overlap.
ghost use Rattle.std.specs.Prelude.{◌≡◌, true, ℕ, Decides};
ghost use Rattle.std.specs.Prelude as list;
ghost use Rattle.cdc_prog.specs.Sections.{Overlap, IsInSection};

use cdc_base::List;
use cdc_num::{Triplet, meet};

fn all_meet(a: &[Triplet], b: &[Triplet]) -> bool
    ensures { Decides result (Overlap a.now b.now) }
{
    match a {
        [] => b.is_empty(),
        [x, xs @ ..] => match b {
            [] => false,
            [y, ys @ ..] => meet(*x, *y) && all_meet(xs, ys),
        },
    }
}

/// Whether two sections overlap: in every dimension some position is in both. So they do where an element is in both.
pub fn overlap(a: &List<Triplet>, b: &List<Triplet>) -> bool
    ensures value { Decides result (Overlap a.now b.now) }
    ensures shared { (zs : list.List ℕ) → IsInSection a.now zs → IsInSection b.now zs → result ≡ true }
{
    all_meet(a.as_slice(), b.as_slice())
}
