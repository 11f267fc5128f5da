//! What the answer of an accepted certificate rests on: steps, and constraints of its file.
//!
//! In: a model, and the steps of a certificate that is accepted for it. Out: those of the steps that its first empty clause rests on, with all
//! its solutions. `planned_lines` searches for them, and nothing is promised of what it finds: `is_trim` takes its steps one by one as those
//! of a certificate are taken, and where one is refused `tested_steps` leaves the old steps in place of all. The old steps alone are held:
//! each new one is made from these where it is taken. Proved against `specs/Kept.antt`; within, against `specs/Planned.antt`, the step of
//! each line, and `specs/Marks.antt`.
//!
//! In: the bytes of a file and of a certificate from any source, and a writer. Out, of `core`: on the writer a line for each constraint that
//! the closed answer was found to rest on, with its item as it stands in the file, and how many there are; or the fault that a check finds.
//! Proved against `specs/Core.antt`: the answer follows from the constraints listed alone, in the words of `fzn_meaning` on lists of
//! solutions; and against `specs/Listing.antt`, in the words of `fzn_sources`, which finds the item that states a constraint.
#![tactic(auto)]

pub use cited::push_number;
pub use kept::Kept;
pub use listing::{Listed, core, core_tracked};
pub use needed::needed_marks;
pub use plan::{Line, Plan, is_marked, new_constraint, planned_lines};
pub use trial::{is_trim, tested_steps};

mod cited;
mod kept;
mod listing;
mod needed;
mod plan;
mod print;
mod trial;
