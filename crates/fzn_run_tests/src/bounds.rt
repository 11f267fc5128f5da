// What `bound` answers and prints.
use crate::files::LEAST;
use fzn_bound::{Known, bound};
use std::alloc::Global;
use std::test::Fail;

const OPEN: &str = "fzc 2\nvars 1 cons 1\ns 6\ni 1 lin ; 1>=4\ne open\n";

const UNSOLVED: &str = "fzc 2\nvars 1 cons 1\ni 1 lin ; 1>=4\ne open\n";

const CLOSED: &str = "fzc 2\nvars 1 cons 1\ns 4\ni 1 lin ; 1>=4\nr ; 1 2\ne closed\n";

/// What is known of the least x by this certificate, where this is printed.
fn known_by(alloc: Global, cert: &str, wanted: &str) -> Option<Known> {
    let mut out: Vec<u8> = Vec::new(alloc);
    let known = bound(alloc, LEAST.as_bytes(), cert.as_bytes(), false, &mut out).ok()?;
    if out.as_slice() == wanted.as_bytes() {
        Some(known)
    } else {
        None
    }
}

#[test]
fn bounds(rt: HostRuntime) -> Result<(), Fail> {
    let alloc = rt.alloc();
    let open = known_by(alloc, OPEN, "x = 6;\n----------\nx = 6, at least 4\n");
    assert_eq!(rt; open, Some(Known::Open { best: 6, bound: 4 }));
    let unsolved = known_by(alloc, UNSOLVED, "=====UNKNOWN=====\nat least 4\n");
    assert_eq!(rt; unsolved, Some(Known::Unsolved { bound: 4 }));
    let closed = known_by(
        alloc,
        CLOSED,
        "x = 4;\n----------\n==========\nx = 4, the best\n",
    );
    assert_eq!(rt; closed, Some(Known::Closed { best: 4 }));
    Ok(())
}
