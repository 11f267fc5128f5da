//! What an accepted certificate proves of the objective.
//!
//! In: the bytes of a file and of a certificate from any source, and a writer. Out: on the writer the answer, as `check` of `fzn_checker`
//! prints it, and one more line: the best value that was found, and the bound that no solution is better than; or the fault that a check
//! finds. The certificate is read once and not held. Proved against `specs/Known.antt`, in the words of `fzn_meaning` on solutions: no
//! solution is better than the line says, and of the bounds that the declared set and steps of one literal give it has the strongest, but
//! none past the best value. `specs/Said.antt` says what the code finds on the way.
#![tactic(auto)]

pub use answer::{bound, bound_tracked};
pub use known::Known;

mod answer;
mod certificate;
mod known;
mod print;
mod said;
