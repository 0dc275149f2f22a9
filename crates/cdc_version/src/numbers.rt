//! The current version of each object.

ghost use Rattle.std.specs.Prelude.{◌≡◌, ◌+◌, ◌-◌, ◌^◌, ◌<◌, ◌≤◌, ℕ, All, IfOk, vec_len, slice_index, replicate, IsTrue, true};
ghost use Rattle.std.specs.List.Sorted.{IsStrictlyIncreasing};
ghost use Rattle.cdc_version.specs.Versions.{next_current};

use cdc_base::NoMemory;
use cdc_scheme::largest;
use std::alloc::Global;

/// The current version number of each object. Every processor counts alike, so one count stands for all.
#[derive(Drop)]
pub struct CurrentVersions {
    last: u16,
    numbers: Vec<u16>,
    ghost within: { (object : ℕ) → slice_index numbers.items object ≤ last },
}

impl CurrentVersions {
    ghost use Rattle.cdc_version.specs.Numbers.{current_of, has_object, vc_starts, vc_closes};

    // Version 0 of each object.
    pub(crate) fn new(alloc: Global, width: u32, objects: u32) -> Result<CurrentVersions, NoMemory>
        requires wide { 2 ≤ width }
        requires narrow { width ≤ 16 }
        ensures { IfOk result (vc_starts width objects) }
    {
        let numbers = vec![in alloc; 0; objects as usize]?;
        Ok(CurrentVersions {
            last: largest(width),
            numbers,
        })
    }

    // The last version number, after which an object's numbers begin again.
    pub(crate) fn last(&self) -> u16
        ensures { result ≡ self.now.last }
    {
        self.last
    }

    // The current version of an object.
    pub(crate) fn current(&self, object: u32) -> u16
        requires object { object < vec_len self.now.numbers }
        ensures value { result ≡ current_of self.now object }
        ensures within { result ≤ self.now.last }
    {
        self.numbers[object as usize]
    }

    // A new version of each of these objects.
    pub(crate) fn advance(&mut self, written: &[u32])
        requires known { All (λ object. IsTrue (has_object self.old object)) written.now }
        requires order { IsStrictlyIncreasing written.now }
        ensures { vc_closes self.old written.now self.new }
    {
        for object in written {
            let object = *object as usize;
            let current = self.numbers[object];
            self.numbers[object] = next(current, self.last);
        }
    }
}

// The version after this one, where numbers begin again after the last.
fn next(current: u16, last: u16) -> u16
    requires within { current ≤ last }
    ensures { result ≡ next_current last current true }
{
    if current == last { 0 } else { current + 1 }
}
