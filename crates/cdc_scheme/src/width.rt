//! Numbers of a few bits.

ghost use Rattle.std.specs.Prelude.{◌≡◌, ◌≤◌, ◌+◌, ◌^◌};

/// The largest number of this many bits, from 1 to 16.
pub fn largest(width: u32) -> u16
    requires some { 1 ≤ width }
    requires narrow { width ≤ 16 }
    ensures { result + 1 ≡ 2 ^ width }
{
    u16::MAX >> (16 - width)
}
