//! Parts of a task.

use arrayvec::ArrayVec;
use cdc_code::ARGUMENTS;

/// An open loop: how many turns are left, and the step.
#[derive(Clone, Copy, Debug, Default)]
pub struct Open {
    pub left: u128,
    pub by: i64,
}

/// Where a call goes on, and the unit there with the objects of its dummies.
#[derive(Default, Drop)]
pub struct Caller {
    pub pc: usize,
    pub unit: u32,
    pub bound: ArrayVec<u32, ARGUMENTS>,
}
