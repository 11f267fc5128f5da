//! What follows from a constraint that is no sum where its inputs have one value each, or all but one of them: by the rule `fixed`.
//!
//! In: a constraint taken apart, and a trail. Out: a clause that is false or forces one literal, or none; where the inputs have one value
//! each, none means that the constraint holds. Proved against `specs/Image.antt`: which values of the result make a constraint hold,
//! where its inputs have these values.
#![tactic(auto)]

pub use fixed::refute_fixed;
pub use image::{Image, of_operation};
pub use last::infer_last;
pub use parts::{Parts, parts_of};

mod demand;
mod fixed;
mod image;
mod last;
mod parts;
mod pass;
mod values;
