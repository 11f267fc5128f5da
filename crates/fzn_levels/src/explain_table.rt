// Clauses that say what tables weigh at least: which of their rows no longer equal the places.
ghost use Rattle.std.specs.Prelude.{◌≡◌, ℕ, ◌+◌, ◌*◌, ◌<◌, pos, length, slice_index_or, IfSome, IfNone, OnOk};
ghost use Rattle.fzn_domain.specs.Limits.{IsInLimits};
ghost use Rattle.fzn_meaning.specs.declared.row.Part.TheVariants.{Table};
ghost use Rattle.fzn_meaning.specs.Separable.{IsTablePart};
ghost use Rattle.fzn_values.specs.Term.{IsTerm};
ghost use Rattle.fzn_rules.specs.GlobalRows.{MayBeRow};
ghost use Rattle.fzn_sets.specs.Terms.{MayBe};
ghost use Rattle.fzn_propagator.specs.Clause.{IsFalseClause};
ghost use Rattle.fzn_terms.specs.Denied.{IsGrown};
ghost use Rattle.fzn_levels.specs.Levels.{IsNoLighter, IsRowNoLighter, SaysNoLighter, IsPlaceOut};

use crate::pass::Pass;
use crate::told::Told;
use fzn_domain::{Lit, Memory};
use fzn_list::Items;
use fzn_meaning::TablePart;
use fzn_rules::{is_light, row_weight};
use fzn_terms::{Claim, explain, may_be};
use fzn_values::Term;

/// Adds to a false clause what it takes to say that no row of the table weighs less than the level and equals the places, and where there is
/// no level that each that equals them is barred. So it is on the trail.
pub(crate) fn explain_table(
    pass: &Pass,
    table: &TablePart,
    level: Option<i128>,
    told: &mut Told,
    clause: &mut Items<Lit>,
) -> Result<(), Memory>
    requires table { IsTablePart (length pass.now.trail.now.declared) table.now }
    requires present { IsNoLighter pass.now.trail.now.sets (Table table.now) level }
    requires still { IsFalseClause pass.now.trail.now clause.old }
    ensures { OnOk result (SaysNoLighter pass.now.trail.now (Table table.now) level clause.old clause.new) }
{
    for r in 0..table.weights.len() {
        explain_row(pass, table, r, level, told, clause)?;
    }
    Ok(())
}

/// Adds to a false clause what it takes to say that row r does not equal the places, where it weighs less than the level.
fn explain_row(
    pass: &Pass,
    table: &TablePart,
    r: usize,
    level: Option<i128>,
    told: &mut Told,
    clause: &mut Items<Lit>,
) -> Result<(), Memory>
    requires table { IsTablePart (length pass.now.trail.now.declared) table.now }
    requires row { r < length table.now.weights }
    requires present { IsNoLighter pass.now.trail.now.sets (Table table.now) level }
    requires still { IsFalseClause pass.now.trail.now clause.old }
    ensures { OnOk result (IsGrown pass.now.trail.now (λ sets. IsRowNoLighter sets table.now r level) clause.old clause.new) }
{
    if !is_light(row_weight(table, r), level) {
        return Ok(());
    }
    told.read(clause.as_slice())?;
    let Some(k) = place_out(pass, table, r, told, clause) else {
        return Ok(()); // Not reached: a row that is so light does not equal the places.
    };
    explain_out(
        pass,
        table.places.as_slice()[k],
        entry_at(table, r, k),
        told,
        clause,
    )
}

/// A place that has not the entry of row r: one of which the clause says so already, where there is one, else the first. `None` where each
/// place may have it.
fn place_out(
    pass: &Pass,
    table: &TablePart,
    r: usize,
    told: &Told,
    clause: &Items<Lit>,
) -> Option<usize>
    requires table { IsTablePart (length pass.now.trail.now.declared) table.now }
    requires row { r < length table.now.weights }
    ensures found { IfSome result (IsPlaceOut pass.now.trail.now.sets table.now r) }
    ensures none { IfNone result (MayBeRow pass.now.trail.now.sets table.now.places table.now.rows r) }
{
    let mut found = None;
    for k in 0..table.places.len() {
        let place = table.places.as_slice()[k];
        let entry = entry_at(table, r, k);
        if !may_be(pass.trail, place, &entry) {
            if told.is_said(pass.trail, clause, place, &entry) {
                return Some(k);
            }
            if found.is_none() {
                found = Some(k);
            }
        }
    }
    found
}

/// Adds to a false clause what it takes to say that the term has not the value, which it has not on the trail.
fn explain_out(
    pass: &Pass,
    term: Term,
    value: i64,
    told: &Told,
    clause: &mut Items<Lit>,
) -> Result<(), Memory>
    requires term { IsTerm (length pass.now.trail.now.declared) term }
    requires value { IsInLimits value }
    requires out { MayBe pass.now.trail.now.sets term value → ⊥ }
    requires still { IsFalseClause pass.now.trail.now clause.old }
    ensures { OnOk result (IsGrown pass.now.trail.now (λ sets. MayBe sets term value → ⊥) clause.old clause.new) }
{
    if let Term::Variable(var) = term
        && told.is_barred(clause, var, &value)
    {
        return Ok(());
    }
    explain(pass.trail, Claim::other_than(term, value), clause)
}

/// The entry of row r at place k, both counted from 0.
fn entry_at(table: &TablePart, r: usize, k: usize) -> i64
    requires table { (count : ℕ) × IsTablePart count table.now }
    requires row { r < length table.now.weights }
    requires place { k < length table.now.places }
    ensures value { result ≡ slice_index_or table.now.rows (r * length table.now.places + k) (pos 0) }
    ensures in_limits { IsInLimits result }
{
    table.rows.constants()[r * table.places.len() + k].number()
}
