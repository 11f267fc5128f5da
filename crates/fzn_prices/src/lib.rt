//! Prices of the values of all different, circuits and inverses and of the entries of tables, with multipliers of linear rows, for a
//! separable row that bounds the objective of a model or that nothing meets, looked for before a search.
//!
//! In: a model and its rows. Out: the items by which a separable row is derived, where one is found: multiples of the rows, the prices,
//! moves, as `fzn_moves` finds them, and what goes to rows of tables. The multipliers and prices are those of the relaxation of
//! `fzn_relaxation`, bettered by a subgradient ascent. Nothing is proved of them but that the calls are safe and end: whoever takes the
//! items asks whether they give a row.
#![tactic(auto)]

pub use finding::prices;

mod ascent;
mod finding;
mod items;
mod lagrangian;
mod multiplier;
mod tables;
