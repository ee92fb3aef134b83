//! A guard makes rows, and calls no term stale by them.
use std::test::Fail;
use term_guard::{Guard, Verdict};

/// The greater term that was seen, if there is one.
fn greater_seen(verdict: Verdict) -> Option<u64> {
    match verdict {
        Verdict::Fresh => None,
        Verdict::Stale(kept) => Some(kept),
    }
}

#[test]
fn part_has_a_row(rt: HostRuntime) -> Result<(), Fail> {
    let mut guard = Guard::new(rt.alloc());
    guard.reserve(2)?;
    guard.reserve(2)?;
    assert_eq!(rt; greater_seen(guard.check(2, 0)), None);
    assert_eq!(rt; greater_seen(guard.check(3, 5)), None);
    Ok(())
}
