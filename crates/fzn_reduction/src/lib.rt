//! What a search keeps beside its trail and its clauses to stay small and fast.
//!
//! In: held clauses with the numbers of their steps, the inferences that stand and those that were written, the trail. Out: the clauses
//! that are left where those of little use are forgotten, the steps that are deleted, and what is noted for the next conflicts. Proved
//! against `specs/Forgetting.antt` (no clause is forgotten on which an entry of the trail rests, and no cut), `specs/Deletion.antt` (no
//! step is deleted that is in use) and `specs/Written.antt` (which step gives a clause); of the choice among the others nothing is promised.
#![tactic(auto)]

pub use cuts::Cuts;
pub use deletion::{Deletion, next_deletion};
pub use forgetting::{forget, forget_units};
pub use notes::Notes;
pub use numbers::Numbers;
pub use written::{Given, Written};

mod cited;
mod cuts;
mod deleting;
mod deletion;
mod forgetting;
mod hints;
mod idle;
mod notes;
mod numbers;
mod ranks;
mod reasons;
mod recent;
mod settling;
mod stock;
mod written;
