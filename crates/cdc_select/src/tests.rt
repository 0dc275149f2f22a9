//! The table of the scheme.

use crate::Select;
use cdc_prog::Mark;
use cdc_scheme::Scheme;
use std::test::Fail;

#[test]
fn a_boundary_sets_each_bit(rt: HostRuntime) -> Result<(), Fail> {
    let mut state = Select::start(rt.alloc(), 0, 2)?;
    for (bit, used) in [(false, true), (true, false)] {
        assert!(rt; !Select::target(&state, 0, Some(bit)), "{bit}");
        assert!(rt; !Select::neighbour(&state, 0, Some(bit)), "{bit}");
        assert!(rt; Select::admits(&state, 0, Mark::Ordinary, bit), "{bit}");
        assert_eq!(rt;
            Select::admits(&state, 0, Mark::Time(1), bit),
            used,
            "{bit}"
        );
        assert_eq!(rt;
            Select::admits(&state, 0, Mark::Time(255), bit),
            used,
            "{bit}"
        );
        assert_eq!(rt; Select::keeps(&state, &[1], 0, bit), Some(true), "{bit}");
        Select::boundary(&mut state, &[1]);
    }
    assert!(rt; !Select::wrote(&state, 0));
    assert!(rt; !Select::target(&state, 1, None) && !Select::neighbour(&state, 1, None));
    assert!(rt; Select::caches());
    Ok(())
}
