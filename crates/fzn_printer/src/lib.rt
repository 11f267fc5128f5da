//! Answers as text.
//!
//! In: solutions one by one, and how the answer ended. Out: their lines on a writer. Proved against `specs/Shown.antt`: the text of a
//! solution, and the line that ends an answer. Of a model it asks for what `specs/Showable.antt` says alone.
#![tactic(auto)]

pub use answer::put_answer;
pub use law::well_formed_can_be_shown;
pub use printer::{Ending, PrintFault, Printer};

mod answer;
mod item;
mod law;
mod printer;
mod value;
