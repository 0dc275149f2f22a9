//! The table of the scheme, up to the last version number and past it.

ghost use Rattle.std.specs.Prelude.{◌<◌, vec_len};

use crate::{CurrentVersions, Version};
use cdc_prog::Mark;
use cdc_scheme::Scheme;
use std::process::Abort;
use std::test::Fail;

// The current version of object 0 and that of a write. Of a copy of version 2: its version once it is filled again,
// whether a marked read uses it, and whether it stays valid past a boundary that lists the object.
type Row = (u16, u16, u16, bool, bool);

fn compare(rt: &impl Abort, state: &CurrentVersions, row: Row)
    requires { 1 < vec_len state.now.numbers }
{
    let (current, wrote, filled, used, stays) = row;
    assert_eq!(rt; Version::target(state, 0, None), current);
    assert_eq!(rt; Version::wrote(state, 0), wrote);
    assert_eq!(rt; Version::neighbour(state, 0, Some(2)), filled);
    assert_eq!(rt; Version::admits(state, 0, Mark::Time(1), 2), used);
    assert_eq!(rt; Version::keeps(state, &[0], 0, 2).is_some(), stays);
    assert_eq!(rt; Version::keeps(state, &[1], 0, 2), Some(2));
}

#[test]
fn numbers_stay_at_the_last_and_begin_again(rt: HostRuntime) -> Result<(), Fail> {
    let mut state = Version::start(rt.alloc(), 2, 2)?;
    compare(&rt, &state, (0, 1, 2, true, true));
    Version::boundary(&mut state, &[0]);
    compare(&rt, &state, (1, 2, 2, true, true));
    Version::boundary(&mut state, &[0]);
    compare(&rt, &state, (2, 3, 2, true, true));
    Version::boundary(&mut state, &[0]);
    compare(&rt, &state, (3, 3, 3, false, false));
    Version::boundary(&mut state, &[0]);
    compare(&rt, &state, (0, 1, 2, true, true));
    Ok(())
}
