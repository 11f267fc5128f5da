ghost use Rattle.std.specs.Prelude.{Some};

use crate::files::{LEAST, TWO_BOOLEANS};
use crate::runs::{options_of, solve};
use fzn_options::Options;
use fzn_solver::{Observer, Progress, Unobserved};
use std::alloc::Global;
use std::test::Fail;

/// What was told last, and how often it went back.
#[derive(Drop)]
struct Last {
    progress: Progress,
    falls: u64,
}

impl Observer for Last {
    ghost nodes = { λ last. Some last.progress.nodes };

    fn tell(&mut self, progress: Progress) {
        let last = self.progress;
        let has_fallen = progress.nodes < last.nodes
            || progress.conflicts < last.conflicts
            || progress.solutions < last.solutions;
        if has_fallen {
            self.falls = self.falls.saturating_add(1);
        }
        self.progress = progress;
    }
}

fn untold() -> Last {
    Last {
        progress: Progress {
            nodes: 0,
            conflicts: 0,
            inferences: 0,
            solutions: 0,
            best: None,
        },
        falls: 0,
    }
}

/// Whether a run that no one watches gives this answer and this certificate.
fn is_same(
    alloc: Global,
    options: &Options,
    file: &str,
    answer: &[u8],
    certificate: &[u8],
) -> bool {
    let mut out: Vec<u8> = Vec::new(alloc);
    let mut cert: Vec<u8> = Vec::new(alloc);
    let report = solve(
        alloc,
        file.as_bytes(),
        options,
        &mut out,
        &mut cert,
        &mut Unobserved,
    );
    report.is_ok() && out.as_slice() == answer && cert.as_slice() == certificate
}

/// What a run tells last, where it never goes back and comes to the decisions of its report.
fn last_of(
    alloc: Global,
    options: &Options,
    file: &str,
    out: &mut Vec<u8>,
    cert: &mut Vec<u8>,
) -> Option<Progress> {
    let mut last = untold();
    let report = solve(alloc, file.as_bytes(), options, out, cert, &mut last).ok()?;
    if last.falls == 0 && report.nodes == last.progress.nodes {
        Some(last.progress)
    } else {
        None
    }
}

/// Whether a run tells so many solutions and this best value last, never went back before, and does what it does when no one watches.
fn is_told(
    alloc: Global,
    options: &Options,
    file: &str,
    solutions: u64,
    best: Option<i64>,
) -> bool {
    let mut out: Vec<u8> = Vec::new(alloc);
    let mut cert: Vec<u8> = Vec::new(alloc);
    let Some(last) = last_of(alloc, options, file, &mut out, &mut cert) else {
        return false;
    };
    last.solutions == solutions && last.best == best && is_same(alloc, options, file, &out, &cert)
}

const MOST: &str =
    "var 0..3: y; var 0..3: x :: output_var; solve :: int_search([y,x],input_order,indomain_min) maximize x;";

#[test]
fn progress(rt: HostRuntime) -> Result<(), Fail> {
    let options = options_of(rt.alloc(), true, 9);
    assert!(rt; is_told(rt.alloc(), &options, TWO_BOOLEANS, 1, None));
    assert!(rt; is_told(rt.alloc(), &options, LEAST, 1, Some(4)));
    assert!(rt; is_told(rt.alloc(), &options, MOST, 4, Some(3)));
    assert!(rt; is_told(rt.alloc(), &options, "solve satisfy;", 1, None));
    Ok(())
}
