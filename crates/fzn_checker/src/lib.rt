//! The checker: from a model and the bytes of a certificate to a verdict that can be believed.
//!
//! In: a model, and the bytes of a certificate from any source. Out: the solutions of the certificate and whether they are all that there
//! are, or the first faulty line and what is wrong with it. Proved against `Outcome` of `fzn_head`, which says what a certificate of any
//! version is worth, and `Verdict` of `fzn_cert` below it; and against the words of `fzn_meaning` on lists of solutions: what is accepted is
//! a proper list, and an exhausted one where it is closed. All calls but `to2` read all three versions. `check` and `to2` take streams of any kind; `check_tracked` and `to2_tracked` take those that remember a failed call, and
//! answer that a stream failed only where it did.
#![tactic(auto)]

pub use answer::{check, check_tracked};
pub use certificate::{Accepted, Verdict, check_certificate};
pub use fault::CheckFault;
pub use hold::{Held, Taken, hold_certificate};
pub use opening::{Opening, further, open_certificate};
pub use rewrite::{to2, to2_tracked};

mod answer;
mod certificate;
mod chain;
mod fault;
mod given;
mod history;
mod hold;
mod judge;
mod next;
mod opening;
mod rewrite;
mod solution;
mod steps;
