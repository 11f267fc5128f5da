//! The headline: solver and checker joined in one law.
//!
//! In: what `run_tracked` of `fzn_solver` and `check_tracked` of `fzn_checker` promise of a file, over streams that tell their bytes. Out:
//! one function that does nothing, whose contract says what follows: what a run prints is true, the check of its certificate accepts and
//! prints the same bytes, and what a check prints of any bytes whatever is true. Stated in `specs/Headline.antt`.
#![tactic(auto)]

pub use law::headline;

mod law;
