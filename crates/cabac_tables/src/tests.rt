//! Contexts by the tables of the standard.
use crate::{Contexts, SliceKind, lps, next};
use std::test::Fail;

#[test]
fn starts(rt: HostRuntime) -> Result<(), Fail> {
    let i = Contexts::start(SliceKind::I);
    for (n, byte) in [(0, 1), (1, 0), (2, 31), (3, 49), (8, 1), (60, 16)] {
        assert_eq!(rt; i.get(n), byte);
    }
    assert_eq!(rt; i.as_slice().len(), 130);
    let p = Contexts::start(SliceKind::P);
    for (n, byte) in [(125, 15), (126, 14), (127, 15), (128, 14), (129, 0)] {
        assert_eq!(rt; p.get(n), byte);
    }
    Ok(())
}

#[test]
fn shares(rt: HostRuntime) -> Result<(), Fail> {
    for (state, quarter, share) in [
        (0, 0, 128),
        (1, 3, 240),
        (2, 2, 197),
        (125, 3, 9),
        (124, 0, 6),
    ] {
        assert_eq!(rt; lps(state, quarter), share);
    }
    Ok(())
}

#[test]
fn steps(rt: HostRuntime) -> Result<(), Fail> {
    // State 0 turns the more probable value; state 62 stays.
    for (state, bin, after) in [
        (0, false, 2),
        (0, true, 1),
        (1, false, 0),
        (125, true, 125),
        (124, false, 124),
        (124, true, 76),
    ] {
        assert_eq!(rt; next(state, bin), after);
    }
    let mut contexts = Contexts::start(SliceKind::I);
    let copy = contexts;
    contexts.step(8, false);
    assert_eq!(rt; contexts.get(8), 0);
    assert_eq!(rt; copy.get(8), 1);
    Ok(())
}
