//! The tasks of an epoch by their numbers: which were taken, and which each processor holds.

ghost use Rattle.std.specs.Prelude.{◌≡◌, ◌↔◌, ◌<◌, ◌≤◌, ◌^◌, ℕ, All, IfOk, length, replicate, slice_set, get_or, None, Some, true, false};
ghost use Rattle.cdc_epoch.specs.Taken.{AreTaken, IsLeast, is_waiting};

use cdc_base::{List, NoMemory};
use std::alloc::Global;

// The most iterations that a DOALL can have.
pub const TASKS: usize = 1 << 20;

/// The tasks of an epoch below `count`: whether each was taken; a number below which all were; and the task that each
/// processor holds.
#[derive(Drop)]
pub struct Roster {
    pub count: u32,
    pub taken: List<bool>,
    pub least: u32,
    pub held: List<Option<u32>>,
    ghost room: { count ≤ length taken },
    ghost passed: { AreTaken taken least },
    ghost size: { length taken ≡ 2 ^ 20 },
}

// So many tasks that nobody has taken.
fn untaken(alloc: Global, many: usize) -> Result<List<bool>, NoMemory>
    ensures long { IfOk result (λ taken. length taken ≡ many) }
    ensures free { IfOk result (λ taken. (i : ℕ) → i < many → get_or taken i true ≡ false) }
{
    Ok(List::of(vec![in alloc; false; many]?))
}

impl Roster {
    // One task, which nobody has taken, for so many processors.
    pub(crate) fn new(alloc: Global, procs: u32) -> Result<Roster, NoMemory>
        ensures count { IfOk result (λ roster. roster.count ≡ 1) }
        ensures taken { IfOk result (λ roster. (i : ℕ) → i < roster.count → get_or roster.taken i true ≡ false) }
        ensures held { IfOk result (λ roster. roster.held ≡ replicate procs None) }
    {
        let taken = untaken(alloc, TASKS)?;
        let held = vec![in alloc; None; procs as usize]?;
        Ok(Roster {
            count: 1,
            taken,
            least: 0,
            held: List::of(held),
        })
    }

    // The task that a processor holds.
    #[inline(always)]
    pub(crate) fn hand(&self, p: u32) -> Option<u32>
        requires { p < length self.now.held }
        ensures { result ≡ get_or self.now.held p None }
    {
        self.held.as_slice()[p as usize]
    }

    // Whether a task is there and was not taken.
    pub(crate) fn is_free(&self, i: u64) -> bool
        ensures { result ≡ is_waiting self.now.taken self.now.count i }
    {
        i < u64::from(self.count) && !self.taken.as_slice()[i as usize]
    }

    // The least task that was not taken.
    #[inline(always)]
    pub(crate) fn least_free(&mut self) -> Option<u32>
        ensures least { IsLeast self.old.taken self.old.count result }
        ensures count { self.new.count ≡ self.old.count }
        ensures taken { self.new.taken ≡ self.old.taken }
        ensures held { self.new.held ≡ self.old.held }
    {
        while self.least < self.count {
            if !self.taken.as_slice()[self.least as usize] {
                return Some(self.least);
            }
            self.least += 1;
        }
        None
    }

    // Whether no processor holds a task.
    pub(crate) fn is_at_rest(&self) -> bool
        ensures { (result ≡ true) ↔ All (λ hand. hand ≡ None) self.now.held }
    {
        self.held.as_slice().iter().all(|hand| hand.is_none())
    }

    // A processor takes a task.
    pub(crate) fn take(&mut self, p: u32, i: u32)
        requires proc { p < length self.old.held }
        requires task { i < self.old.count }
        ensures count { self.new.count ≡ self.old.count }
        ensures taken { self.new.taken ≡ slice_set self.old.taken i true }
        ensures held { self.new.held ≡ slice_set self.old.held p (Some i) }
    {
        self.taken.set(i as usize, true);
        self.held.set(p as usize, Some(i));
    }

    // The task of a processor has ended.
    pub(crate) fn end(&mut self, p: u32)
        requires { p < length self.old.held }
        ensures count { self.new.count ≡ self.old.count }
        ensures taken { self.new.taken ≡ self.old.taken }
        ensures held { self.new.held ≡ slice_set self.old.held p None }
    {
        self.held.set(p as usize, None);
    }

    // So many tasks that nobody has taken.
    pub(crate) fn open(&mut self, count: u32)
        requires { count ≤ 2 ^ 20 }
        ensures count { self.new.count ≡ count }
        ensures taken { (i : ℕ) → i < count → get_or self.new.taken i true ≡ false }
        ensures held { self.new.held ≡ self.old.held }
    {
        self.least = 0;
        self.count = count;
        for i in 0..count {
            self.taken.set(i as usize, false);
        }
    }
}
