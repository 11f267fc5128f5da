// The rule `rows` of table, circuit, inverse and cumulative.
ghost use Rattle.std.specs.Prelude.{◌≡◌, ◌↔◌, ◌+◌, ◌*◌, ◌<◌, ◌≤◌, IsTrue, false, length};
ghost use Rattle.std.specs.List.{All, Any};
ghost use Rattle.fzn_domain.specs.Narrow.{is_some_empty};
ghost use Rattle.fzn_values.specs.Term.{IsTerm, numbers_in};
ghost use Rattle.fzn_meaning.specs.Meaning.{IsWellFormedConstraint};
ghost use Rattle.fzn_rules.specs.GlobalRows.{IsRowOut, AreRowsOut, HasNoIndex, IsBelowZero, HasAmountBelowZero, IsGlobalRowsMet};

use fzn_meaning::Constraint;
use fzn_sets::{Sets, greatest_value, is_index, may_be};
use fzn_values::Term;

/// Whether the sets leave no row of a table, no index for an entry of a circuit or of inverse lists, or only amounts below 0. It looks
/// at each number of a table once, and at each term of the others. No set may be empty. `false` for any other constraint.
#[tactic(auto, unfolding(crate::specs::GlobalRows::IsGlobalRowsMet, fzn_meaning::specs::Meaning::IsWellFormedConstraint))]
pub fn is_global_rows_met(constraint: &Constraint, sets: &Sets) -> bool
    requires constraint { IsWellFormedConstraint (length sets.now.present) constraint.now }
    requires nonempty { is_some_empty sets.now.present ≡ false }
    ensures { IsTrue result ↔ IsGlobalRowsMet constraint.now sets.now.present }
{
    match constraint {
        Constraint::Table { places, rows } => {
            are_rows_out(sets, places.as_slice(), rows.constants())
        }
        Constraint::Circuit { successors } => has_no_index_somewhere(sets, successors.as_slice()),
        Constraint::Inverse { forward, backward } => {
            has_no_index_somewhere(sets, forward.as_slice())
                || has_no_index_somewhere(sets, backward.as_slice())
        }
        Constraint::Cumulative {
            durations,
            uses,
            capacity,
            ..
        } => has_amount_below_zero(sets, durations.as_slice(), uses.as_slice(), *capacity),
        _ => false,
    }
}

fn are_rows_out(sets: &Sets, places: &[Term], rows: &[Term]) -> bool
    requires places { All (IsTerm (length sets.now.present)) places.now }
    requires some { 0 < length places.now }
    ensures { IsTrue result ↔ AreRowsOut sets.now.present places.now (numbers_in rows.now) }
{
    for r in 0..rows.len() / places.len() {
        if !is_row_out(sets, places, rows, r) {
            return false;
        }
    }
    true
}

/// Whether some value of row r, counted from 0, is not in its place's set.
pub(crate) fn is_row_out(sets: &Sets, places: &[Term], rows: &[Term], r: usize) -> bool
    requires places { All (IsTerm (length sets.now.present)) places.now }
    requires whole { r * length places.now + length places.now ≤ length rows.now }
    ensures { IsTrue result ↔ IsRowOut sets.now.present places.now (numbers_in rows.now) r }
{
    for k in 0..places.len() {
        if !may_be(sets, places[k], &rows[r * places.len() + k].number()) {
            return true;
        }
    }
    false
}

/// Whether the set of some entry holds no index of the entries.
fn has_no_index_somewhere(sets: &Sets, entries: &[Term]) -> bool
    requires { All (IsTerm (length sets.now.present)) entries.now }
    ensures { IsTrue result ↔ Any (HasNoIndex sets.now.present (length entries.now)) entries.now }
{
    for entry in entries {
        if has_no_index(sets, entries.len(), *entry) {
            return true;
        }
    }
    false
}

fn has_no_index(sets: &Sets, count: usize, term: Term) -> bool
    requires { IsTerm (length sets.now.present) term }
    ensures { IsTrue result ↔ HasNoIndex sets.now.present count term }
{
    match term {
        Term::Constant(k) => !is_index(count, &k),
        Term::Variable(var) => match sets.domain(var).above(0) {
            Some(index) => !is_index(count, &index),
            None => true,
        },
    }
}

fn has_amount_below_zero(sets: &Sets, durations: &[Term], uses: &[Term], capacity: Term) -> bool
    requires durations { All (IsTerm (length sets.now.present)) durations.now }
    requires uses { All (IsTerm (length sets.now.present)) uses.now }
    requires capacity { IsTerm (length sets.now.present) capacity }
    requires nonempty { is_some_empty sets.now.present ≡ false }
    ensures { IsTrue result ↔ HasAmountBelowZero sets.now.present durations.now uses.now capacity }
{
    is_below_zero_somewhere(sets, durations)
        || is_below_zero_somewhere(sets, uses)
        || is_below_zero(sets, capacity)
}

fn is_below_zero_somewhere(sets: &Sets, terms: &[Term]) -> bool
    requires terms { All (IsTerm (length sets.now.present)) terms.now }
    requires nonempty { is_some_empty sets.now.present ≡ false }
    ensures { IsTrue result ↔ Any (IsBelowZero sets.now.present) terms.now }
{
    for term in terms {
        if is_below_zero(sets, *term) {
            return true;
        }
    }
    false
}

fn is_below_zero(sets: &Sets, term: Term) -> bool
    requires term { IsTerm (length sets.now.present) term }
    requires nonempty { is_some_empty sets.now.present ≡ false }
    ensures { IsTrue result ↔ IsBelowZero sets.now.present term }
{
    greatest_value(sets, term) < 0
}
