// Where the variables of a unit stand.
ghost use Rattle.std.specs.Prelude.{◌≡◌, ◌+◌, ◌<◌};
ghost use Rattle.cdc_prog.specs.Data.{size_of, object_of, base_of, dims_of};
ghost use Rattle.cdc_prog.specs.Resolved.{IsVar};
ghost use Rattle.cdc_meaning.specs.Frames.{shapes_of, binding, IsPlaced};

use cdc_prog::{Dim, Dummy, Program, Var};

/// A program, and what the dummies of the unit that is carried out stand for.
#[derive(Clone, Copy)]
pub struct Frame<'a> {
    pub program: &'a Program,
    pub dummies: &'a [Dummy],
    /// For each dummy the number of the object that it stands for.
    pub bound: &'a [u32],
}

impl<'a> Frame<'a> {
    // The number of the object that a variable stands for.
    #[inline(always)]
    fn object(&self, var: Var) -> usize
        ensures { result ≡ object_of (binding self.now) var }
    {
        match var {
            Var::Object(k) => k as usize,
            Var::Dummy(k) => self.bound.get(k as usize).copied().unwrap_or(0) as usize,
            Var::Slot(_) => 0,
        }
    }

    // The first word of a variable that is no slot.
    #[inline(always)]
    fn base(&self, var: Var) -> u32
        requires placed { IsPlaced self.now }
        requires known { IsVar self.now.program.now.objects (shapes_of self.now) 0 var }
        ensures { result ≡ base_of (binding self.now) var }
    {
        self.program.objects.as_slice()[self.object(var)].base
    }

    /// The dimensions of a variable; none for a scalar.
    #[inline(always)]
    pub fn dims(&self, var: Var) -> &'a [Dim]
        ensures { result.now ≡ dims_of (binding self.now) var }
    {
        match var {
            Var::Object(k) => match self.program.objects.as_slice().get(k as usize) {
                Some(object) => object.dims.as_slice(),
                None => &[],
            },
            Var::Dummy(k) => match self.dummies.get(k as usize) {
                Some(dummy) => dummy.dims.as_slice(),
                None => &[],
            },
            Var::Slot(_) => &[],
        }
    }

    /// The word of element `n` of a variable that is no slot.
    #[inline(always)]
    pub fn word(&self, var: Var, n: u32) -> u32
        requires placed { IsPlaced self.now }
        requires known { IsVar self.now.program.now.objects (shapes_of self.now) 0 var }
        requires inside { n < size_of (dims_of (binding self.now) var) }
        ensures value { result ≡ base_of (binding self.now) var + n }
        ensures within { result < self.now.program.now.words }
    {
        self.base(var) + n
    }
}
