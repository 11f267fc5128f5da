// How many conflicts there are from one restart to the next.
use crate::models::model_of;
use fzn_domain::Memory;
use fzn_meaning::Model;
use fzn_search::{Choice, Search, next_interval};
use fzn_strategy::Parameters;
use std::alloc::Global;
use std::test::*;

/// A search of nothing, with its first restart after so many conflicts.
fn search_of(alloc: Global, model: &Model, first: u64) -> Result<Search, Memory> {
    let choice = Choice {
        free: false,
        seed: None,
        restart_after: Some(first),
        keep: 0,
        parameters: Parameters::default(),
    };
    Search::new(alloc, model, &[], choice)
}

/// How many conflicts there are up to the next restart, where these are fewer than a thousand.
fn interval_of(search: &mut Search) -> u64 {
    for count in 1..1_000u64 {
        if search.conflict() {
            return count;
        }
    }
    0
}

/// Whether these are the conflicts from one restart to the next, the first of them up to the first restart.
fn are_intervals(alloc: Global, model: &Model, intervals: &[u64]) -> Result<bool, Memory> {
    let first = intervals.first().copied().unwrap_or(0);
    let mut search = search_of(alloc, model, first)?;
    for wanted in intervals {
        if interval_of(&mut search) != *wanted {
            return Ok(false);
        }
    }
    Ok(true)
}

/// Each is the one before times 3 divided by 2, rounded down.
#[test]
fn intervals_grow_by_half(rt: HostRuntime) -> Result<(), Fail> {
    let model = model_of(rt.alloc(), "solve satisfy;")?;
    assert!(rt;
        are_intervals(
            rt.alloc(),
            &model,
            &[2, 3, 4, 6, 9, 13, 19, 28, 42, 63, 94, 141, 211, 316, 474]
        )?
    );
    assert!(rt; are_intervals(rt.alloc(), &model, &[100, 150, 225, 337, 505, 757])?);
    assert!(rt; are_intervals(rt.alloc(), &model, &[1, 1, 1, 1])?);
    Ok(())
}

/// No interval is longer than 10^12.
#[test]
fn intervals_stay_below_a_limit(rt: HostRuntime) {
    let cases = [
        (666_666_666_666, 999_999_999_999),
        (666_666_666_667, 1_000_000_000_000),
        (1_000_000_000_000, 1_000_000_000_000),
        (18_446_744_073_709_551_615, 1_000_000_000_000),
    ];
    for (interval, wanted) in cases {
        assert_eq!(rt; next_interval(interval, 50), wanted, "after {interval}");
    }
}
