// The number of an array element, subscript by subscript.
ghost use Rattle.std.specs.Prelude.{◌≡◌, ◌*◌, ◌^◌, ◌<◌, ◌∷◌, ℤ, List};
ghost use Rattle.cdc_prog.specs.declared.program.Dim.{Dim as DimOf};
ghost use Rattle.cdc_meaning.specs.Folded.{number_of};

use cdc_prog::{Dim, position};

/// What the subscripts so far come to: the sum of positions times strides, the stride of the next
/// dimension, and whether all of them are inside their bounds.
#[derive(Clone, Copy)]
pub struct Folded {
    pub number: u32,
    pub stride: u32,
    pub is_inside: bool,
}

impl Folded {
    /// One subscript more, in this dimension.
    #[inline(always)]
    pub fn with(self, dim: Dim, sub: i64) -> Folded
        requires below { self.number < self.stride }
        requires room { self.stride * dim.extent < 2 ^ 32 }
        requires some { 0 < dim.extent }
        ensures number { (dims : List DimOf) (subs : List ℤ) → number_of self (dim ∷ dims) (sub ∷ subs) ≡ number_of result dims subs }
        ensures stride { result.stride ≡ self.stride * dim.extent }
        ensures below { result.number < result.stride }
    {
        let stride = self.stride * dim.extent;
        match position(dim, sub) {
            Ok(place) => Folded {
                number: self.number + place * self.stride,
                stride,
                is_inside: self.is_inside,
            },
            Err(_) => Folded {
                number: 0,
                stride,
                is_inside: false,
            },
        }
    }
}
