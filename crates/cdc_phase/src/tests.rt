//! The table of the scheme, at widths so small that its borders are near, and at the widest.

use crate::Phase;
use cdc_prog::Mark;
use cdc_scheme::Scheme;
use std::test::Fail;

#[test]
fn tags_wrap_and_phases_are_reset(rt: HostRuntime) -> Result<(), Fail> {
    // The width, the boundaries so far, and the counter; a copy's tag, its age, the tag of a neighbour that had it, and
    // whether it stays valid past the next boundary.
    for (width, epochs, count, tag, age, neighbour, stays) in [
        (2, 0, 0, 0, 0, 0, true),
        (2, 0, 0, 3, 1, 3, true),
        (2, 0, 0, 2, 2, 3, true),
        (2, 0, 0, 1, 3, 3, true),
        (2, 1, 1, 0, 1, 0, true),
        (2, 1, 1, 1, 0, 1, true),
        (2, 1, 1, 2, 3, 0, false),
        (2, 1, 1, 3, 2, 0, false),
        (2, 2, 2, 1, 1, 1, true),
        (2, 3, 3, 0, 3, 2, false),
        (2, 3, 3, 1, 2, 2, false),
        (2, 3, 3, 2, 1, 2, true),
        (2, 3, 3, 3, 0, 3, true),
        (2, 4, 0, 3, 1, 3, true),
        (3, 1, 1, 4, 5, 0, true),
        (3, 3, 3, 3, 0, 3, true),
        (3, 3, 3, 4, 7, 2, false),
        (3, 7, 7, 4, 3, 6, true),
        (3, 7, 7, 3, 4, 6, false),
        (8, 0, 0, 1, 255, 255, true),
        (8, 127, 127, 127, 0, 127, true),
        (8, 127, 127, 128, 255, 126, false),
        (16, 0, 0, 65_535, 1, 65_535, true),
        (16, 0, 0, 65_534, 2, 65_535, true),
    ] {
        assert!(rt; 2 <= width && width <= 16);
        let mut state = Phase::start(rt.alloc(), width, 3)?;
        for _ in 0..epochs {
            Phase::boundary(&mut state, &[]);
        }
        let row = format!(in rt.alloc(); "tag {tag} at {count} of width {width}")?;
        assert_eq!(rt; Phase::target(&state, 0, Some(tag)), count, "{row}");
        assert_eq!(rt; Phase::target(&state, 0, None), count, "{row}");
        assert_eq!(rt; Phase::wrote(&state, 0), count, "{row}");
        assert_eq!(rt; Phase::neighbour(&state, 0, Some(tag)), neighbour, "{row}");
        assert!(rt; Phase::admits(&state, 0, Mark::Ordinary, tag), "{row}");
        for d in 1..=255 {
            assert_eq!(rt;
                Phase::admits(&state, 0, Mark::Time(d), tag),
                age <= d,
                "{row}"
            );
        }
        let kept = if stays { Some(tag) } else { None };
        assert_eq!(rt; Phase::keeps(&state, &[], 0, tag), kept, "{row}");
    }
    Ok(())
}

#[test]
fn a_neighbour_that_was_not_there_is_of_the_epoch_before(rt: HostRuntime) -> Result<(), Fail> {
    for (width, epochs, neighbour) in [
        (2, 0, 3),
        (2, 1, 0),
        (2, 4, 3),
        (4, 5, 4),
        (16, 0, 65_535),
    ] {
        assert!(rt; 2 <= width && width <= 16);
        let mut state = Phase::start(rt.alloc(), width, 1)?;
        for _ in 0..epochs {
            Phase::boundary(&mut state, &[0]);
        }
        assert_eq!(rt;
            Phase::neighbour(&state, 0, None),
            neighbour,
            "width {width}"
        );
    }
    assert!(rt; Phase::caches());
    Ok(())
}
