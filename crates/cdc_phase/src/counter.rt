//! The counter of epochs, which wraps.

ghost use Rattle.std.specs.Prelude.{◌≡◌, ◌+◌, ◌-◌, ◌^◌, ◌≤◌};
ghost use Rattle.cdc_phase.specs.Tags.{next_count, count_before, wrapped_age, low_bits, top_bit};

use cdc_scheme::largest;

/// The number of the epoch, of which as many bits are kept as a tag has.
#[derive(Drop)]
pub struct Counter {
    width: u32,
    mask: u16,
    count: u16,
    ghost wide: { 2 ≤ width },
    ghost narrow: { width ≤ 16 },
    ghost masks: { mask + 1 ≡ 2 ^ width },
    ghost within: { count ≤ mask },
}

impl Counter {
    // The counter of the first epoch.
    pub(crate) fn new(width: u32) -> Counter
        requires wide { 2 ≤ width }
        requires narrow { width ≤ 16 }
        ensures width { result.width ≡ width }
        ensures count { result.count ≡ 0 }
    {
        Counter {
            width,
            mask: largest(width),
            count: 0,
        }
    }

    // The tag of the present epoch.
    pub(crate) fn count(&self) -> u16
        ensures { result ≡ self.now.count }
    {
        self.count
    }

    // The tag of the next epoch.
    pub(crate) fn next(&self) -> u16
        ensures { result ≡ next_count (2 ^ self.now.width) self.now.count }
    {
        self.count.wrapping_add(1) & self.mask
    }

    // The tag of the epoch before.
    pub(crate) fn before(&self) -> u16
        ensures { result ≡ count_before (2 ^ self.now.width) self.now.count }
    {
        self.count.wrapping_sub(1) & self.mask
    }

    // How many epochs ago this was the tag.
    pub(crate) fn age(&self, tag: u16) -> u16
        ensures { result ≡ wrapped_age (2 ^ self.now.width) self.now.count tag }
    {
        self.count.wrapping_sub(tag) & self.mask
    }

    // All bits of a tag but the top one.
    pub(crate) fn low_bits(&self, tag: u16) -> u16
        ensures { result ≡ low_bits (2 ^ (self.now.width - 1)) tag }
    {
        tag & (self.mask >> 1)
    }

    // The top bit of a tag, which tells its phase.
    pub(crate) fn top_bit(&self, tag: u16) -> u16
        ensures { result ≡ top_bit (2 ^ (self.now.width - 1)) tag }
    {
        (tag >> (self.width - 1)) & 1
    }

    // Goes on to the next epoch.
    pub(crate) fn advance(&mut self)
        ensures width { self.new.width ≡ self.old.width }
        ensures count { self.new.count ≡ next_count (2 ^ self.old.width) self.old.count }
    {
        self.count = self.next();
    }
}
