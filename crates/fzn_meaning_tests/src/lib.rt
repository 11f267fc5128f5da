//! Tests of domains, of sets that are narrowed, of what models mean, of the rules of certificates, and of constraints that are derived.
//!
//! In: ranges and listed values, a small model for each goal, a constraint for each name. Out: the calls of `Domain`, of `is_solution`,
//! `better` and `cut` of `fzn_meaning` on lists of values, against tables written by hand; each rule by its own call on a choice of sets,
//! and of `fzn_rules` on each choice of small sets, against `holds`; derivations of `fzn_derive`, rows of `fzn_row`, and each call of
//! `fzn_find`, `fzn_multipliers` and `fzn_prices`, on a small model. Nothing is proved here beyond that the tests are safe; they stand
//! apart so that the proofs of the crates below don't wait for theirs.
#![tactic(auto)]

#[cfg(test)]
mod derives;
#[cfg(test)]
mod domains;
#[cfg(test)]
mod finds;
#[cfg(test)]
mod kinds;
#[cfg(test)]
mod models;
#[cfg(test)]
mod rows;
#[cfg(test)]
mod rule_calls;
#[cfg(test)]
mod rules;
#[cfg(test)]
mod sets;
#[cfg(test)]
mod terms;
