// The rule `rows`: the sets leave no value, no entry that the constraint asks for.
ghost use Rattle.std.specs.Prelude.{◌≡◌, ◌↔◌, ◌≤◌, IsTrue, false, length};
ghost use Rattle.std.specs.List.{All, Any};
ghost use Rattle.fzn_domain.specs.Narrow.{is_some_empty};
ghost use Rattle.fzn_values.specs.Term.{IsTerm};
ghost use Rattle.fzn_meaning.specs.Meaning.{IsWellFormedConstraint, IsSwitch};
ghost use Rattle.fzn_builtin_rules.specs.Rows.{AsksEquality, ShareNone, IsSetAvoided, IsInside, IsSetMissed, NoEntryFits, IsBeyond, NoAbsoluteFits, IsRowsMet};

use crate::overlap::{absolutes_apart, are_apart, is_absolute_in, is_part_of};
use fzn_domain::Domain;
use fzn_meaning::{Constraint, Extreme, Relation};
use fzn_sets::{Sets, greatest_value, is_fixed_to, least_value, may_be};
use fzn_values::Term;

/// Whether the sets leave no value or no entry that the constraint asks for. No set may be empty. `false` for a constraint that the rule is
/// not for.
#[tactic(auto, unfolding(crate::specs::Rows::IsRowsMet, fzn_meaning::specs::Meaning::IsWellFormedConstraint))]
pub fn is_rows_met(constraint: &Constraint, sets: &Sets) -> bool
    requires constraint { IsWellFormedConstraint (length sets.now.present) constraint.now }
    requires nonempty { is_some_empty sets.now.present ≡ false }
    ensures { IsTrue result ↔ IsRowsMet constraint.now sets.now.present }
{
    match constraint {
        Constraint::Compare {
            relation,
            left,
            right,
            switch,
        } => { asks_equality(sets, *relation, *switch) && share_none(sets, *left, *right) }
        Constraint::BoolToInt { boolean, integer } => share_none(sets, *boolean, *integer),
        Constraint::SetIn { term, set, switch } => is_set_missed(sets, *term, set, *switch),
        Constraint::Element {
            index,
            entries,
            value,
        } => { no_entry_fits(sets, *index, entries.as_slice(), *value) }
        Constraint::Extremum {
            extreme,
            entries,
            result,
        } => {
            some_passes(sets, *extreme, *result, entries.as_slice())
                || none_shares(sets, entries.as_slice(), *result)
        }
        Constraint::IntAbs { of, result } => no_absolute_fits(sets, *of, *result),
        _ => false,
    }
}

/// Whether the relation and its switch leave no other way than that the two terms are equal.
fn asks_equality(sets: &Sets, relation: Relation, switch: Option<Term>) -> bool
    requires switch { IsSwitch (length sets.now.present) switch }
    requires nonempty { is_some_empty sets.now.present ≡ false }
    ensures { IsTrue result ↔ AsksEquality sets.now.present relation switch }
{
    match (relation, switch) {
        (Relation::Equal, None) => true,
        (Relation::Equal, Some(switch)) => is_fixed_to(sets, switch, 1),
        (Relation::NotEqual, Some(switch)) => is_fixed_to(sets, switch, 0),
        _ => false,
    }
}

/// Whether the sets of the two terms share no value.
fn share_none(sets: &Sets, first: Term, second: Term) -> bool
    requires first { IsTerm (length sets.now.present) first }
    requires second { IsTerm (length sets.now.present) second }
    requires nonempty { is_some_empty sets.now.present ≡ false }
    ensures { IsTrue result ↔ ShareNone sets.now.present first second }
{
    match first {
        Term::Constant(k) => !may_be(sets, second, &k),
        Term::Variable(var) => is_outside(sets, second, sets.domain(var)),
    }
}

fn is_set_missed(sets: &Sets, term: Term, set: &Domain, switch: Option<Term>) -> bool
    requires term { IsTerm (length sets.now.present) term }
    requires switch { IsSwitch (length sets.now.present) switch }
    requires nonempty { is_some_empty sets.now.present ≡ false }
    ensures { IsTrue result ↔ IsSetMissed sets.now.present term set.now switch }
{
    match switch {
        None => is_outside(sets, term, set),
        Some(switch) if is_fixed_to(sets, switch, 1) => is_outside(sets, term, set),
        Some(switch) => is_fixed_to(sets, switch, 0) && is_inside(sets, term, set),
    }
}

/// Whether no value of the term is in the set.
#[tactic(auto, using(fzn_sets::proofs::CallerLemmas::some_value))]
fn is_outside(sets: &Sets, term: Term, set: &Domain) -> bool
    requires term { IsTerm (length sets.now.present) term }
    requires nonempty { is_some_empty sets.now.present ≡ false }
    ensures { IsTrue result ↔ IsSetAvoided sets.now.present term set.now }
{
    match term {
        Term::Constant(k) => !set.contains(k),
        Term::Variable(var) => are_apart(sets.domain(var), set),
    }
}

/// Whether every value of the term is in the set.
#[tactic(auto, using(fzn_sets::proofs::CallerLemmas::some_value))]
fn is_inside(sets: &Sets, term: Term, set: &Domain) -> bool
    requires term { IsTerm (length sets.now.present) term }
    requires nonempty { is_some_empty sets.now.present ≡ false }
    ensures { IsTrue result ↔ IsInside sets.now.present term set.now }
{
    match term {
        Term::Constant(k) => set.contains(k),
        Term::Variable(var) => is_part_of(sets.domain(var), set),
    }
}

/// Whether no index has an entry that shares a value with the term.
fn no_entry_fits(sets: &Sets, index: Term, entries: &[Term], value: Term) -> bool
    requires index { IsTerm (length sets.now.present) index }
    requires entries { All (IsTerm (length sets.now.present)) entries.now }
    requires short { length entries.now ≤ 100000 }
    requires value { IsTerm (length sets.now.present) value }
    requires nonempty { is_some_empty sets.now.present ≡ false }
    ensures { IsTrue result ↔ NoEntryFits sets.now.present index entries.now value }
{
    for k in 0..entries.len() {
        if may_be(sets, index, &(k as i64 + 1)) && !share_none(sets, entries[k], value) {
            return false;
        }
    }
    true
}

/// Whether every value of some entry is beyond every value of the result.
fn some_passes(sets: &Sets, extreme: Extreme, bound: Term, entries: &[Term]) -> bool
    requires bound { IsTerm (length sets.now.present) bound }
    requires entries { All (IsTerm (length sets.now.present)) entries.now }
    requires nonempty { is_some_empty sets.now.present ≡ false }
    ensures { IsTrue result ↔ Any (IsBeyond sets.now.present extreme bound) entries.now }
{
    for entry in entries {
        if passes(sets, extreme, bound, *entry) {
            return true;
        }
    }
    false
}

fn passes(sets: &Sets, extreme: Extreme, bound: Term, entry: Term) -> bool
    requires bound { IsTerm (length sets.now.present) bound }
    requires entry { IsTerm (length sets.now.present) entry }
    requires nonempty { is_some_empty sets.now.present ≡ false }
    ensures { IsTrue result ↔ IsBeyond sets.now.present extreme bound entry }
{
    match extreme {
        Extreme::Greatest => greatest_value(sets, bound) < least_value(sets, entry),
        Extreme::Least => greatest_value(sets, entry) < least_value(sets, bound),
    }
}

/// Whether no entry shares a value with the term.
fn none_shares(sets: &Sets, entries: &[Term], value: Term) -> bool
    requires entries { All (IsTerm (length sets.now.present)) entries.now }
    requires value { IsTerm (length sets.now.present) value }
    requires nonempty { is_some_empty sets.now.present ≡ false }
    ensures { IsTrue result ↔ All (λ entry. ShareNone sets.now.present entry value) entries.now }
{
    for entry in entries {
        if !share_none(sets, *entry, value) {
            return false;
        }
    }
    true
}

/// Whether no value of the one term has its absolute value in the set of the other.
#[tactic(auto, using(fzn_sets::proofs::CallerLemmas::some_value))]
fn no_absolute_fits(sets: &Sets, of: Term, absolute: Term) -> bool
    requires of { IsTerm (length sets.now.present) of }
    requires absolute { IsTerm (length sets.now.present) absolute }
    requires nonempty { is_some_empty sets.now.present ≡ false }
    ensures { IsTrue result ↔ NoAbsoluteFits sets.now.present of absolute }
{
    match (of, absolute) {
        (Term::Constant(k), _) => !may_be(sets, absolute, &k.abs()),
        (Term::Variable(var), Term::Constant(k)) => !is_absolute_in(k, sets.domain(var)),
        (Term::Variable(one), Term::Variable(other)) => {
            absolutes_apart(sets.domain(one), sets.domain(other))
        }
    }
}
