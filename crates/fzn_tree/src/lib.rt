//! The tree of a file, and what each part of it spells.
//!
//! In: the values that a set lists. Out: their list. The rest is types: a tree has one for each part of a file. `specs/Grammar.antt` says
//! what each part spells, in the grammar's own words, and `specs/Piece.antt` which tokens are so spelled. `Listed` is proved against
//! the list of its values.
#![tactic(auto)]

mod listed;
mod tree;

pub use listed::Listed;
pub use tree::{
    Ann, AnnArg, AnnTerm, Arg, Array, ArrayVar, Base, Basic, Con, Goal, Indices, Int, Literal,
    Name, Param, ParamBase, ParamValue, Predicate, PredicateParam, Range, SingleVar, Size, Solve,
    Tree, Values, Var,
};
