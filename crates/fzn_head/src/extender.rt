// Constraints more, one after the other.
ghost use Rattle.std.specs.Prelude.{◌≡◌, ◌⊎◌, ◌+◌, [], ◌∷◌, IfOk, IfErr, OnOk, OnErr, length};
ghost use Rattle.std.specs.List.{All};
ghost use Rattle.fzn_meaning.specs.Meaning.{IsWellFormedConstraint};
ghost use Rattle.fzn_cited.specs.declared.fault.DeriveFault.TheVariants.{Memory};
ghost use Rattle.fzn_head.specs.Extended.{Extends, IsFaultyWithin, terms_held, listed_for, listed_of, listed_in};
ghost use Rattle.fzn_head.specs.Extender.{IsReadyFor, most_terms};

use fzn_cited::DeriveFault;
use fzn_derive::{Derivation, Deriver};
use fzn_meaning::{Constraint, Listed, Model, Part};
use std::alloc::{AllocError, Global};

/// How many terms all derived constraints have at most together.
pub const TERM_LIMIT: u64 = 1_000_000;

/// Puts derived constraints behind a model's own, one after the other.
#[derive(Drop)]
pub struct Extender {
    /// Where constraints are added up.
    room: Deriver,
    /// How many terms the next ones may have together.
    left: u64,
}

impl Extender {
    /// For a model with so many variables, which has no derived constraints yet. It answers `Err` where memory runs out.
    pub fn new(alloc: Global, variables: usize) -> Result<Extender, AllocError>
        ensures ready { IfOk result (IsReadyFor variables) }
        ensures left { IfOk result (λ extender. extender.left ≡ TERM_LIMIT) }
    {
        Ok(Extender {
            room: Deriver::new(alloc, variables)?,
            left: TERM_LIMIT,
        })
    }

    /// Puts the constraint that the derivation gives behind the model's. Where it gives none, it answers what is wrong as `Deriver::derive`
    /// does, or `Memory`; it answers `NotDerived` too where the derived constraints would have more than 1,000,000 terms together. The model
    /// is as before then.
    pub fn extend(
        &mut self,
        alloc: Global,
        model: &mut Model,
        derivation: &Derivation,
    ) -> Result<(), DeriveFault>
        requires ready { IsReadyFor (length model.old.vars) self.old }
        requires formed { All (IsWellFormedConstraint (length model.old.vars)) model.old.constraints }
        ensures ready { IsReadyFor (length model.old.vars) self.new }
        ensures same_vars { model.new.vars ≡ model.old.vars }
        ensures same_most { most_terms self.new model.new ≡ most_terms self.old model.old }
        ensures extended { OnOk result (Extends model.old (derivation.now ∷ []) model.new) }
        ensures fault { IfErr result (λ fault. (fault ≡ Memory) ⊎ IsFaultyWithin (most_terms self.old model.old) model.old derivation.now fault) }
        ensures same { OnErr result (model.new ≡ model.old) }
    {
        let constraint = self.room.derive(
            alloc,
            model.constraints.as_slice(),
            model.vars.as_slice(),
            derivation,
        )?;
        let terms = terms_held(&constraint);
        if terms > self.left as u128 {
            return Err(DeriveFault::NotDerived);
        }
        model.constraints.push(constraint)?;
        self.left -= terms as u64;
        Ok(())
    }
}

/// How many terms a constraint has that is of a kind that is derived.
fn terms_held(constraint: &Constraint) -> u128
    ensures { result ≡ terms_held constraint.now }
{
    match constraint {
        Constraint::Linear { sum, .. } => sum.len() as u128,
        Constraint::ArrayBoolXor { inputs } => inputs.len() as u128,
        Constraint::AllDifferent { places } => places.len() as u128,
        Constraint::Row(row) => parts_held(row.parts.as_slice()),
        _ => 0,
    }
}

/// How many parts there are, and how many numbers a look at each goes over, together.
fn parts_held(parts: &[Part]) -> u128
    ensures { result ≡ length parts.now + listed_in parts.now }
{
    let mut held = parts.len() as u128;
    for part in parts {
        held += listed_of(part) as u128;
    }
    held
}

/// How many numbers a look at the part goes over: those that are listed for a variable, and the entries of a table's rows.
fn listed_of(part: &Part) -> usize
    ensures { result ≡ listed_of part.now }
{
    match part {
        Part::Variable(part) => listed_for(&part.listed),
        Part::Table(table) => table.rows.constants().len(),
    }
}

fn listed_for(listed: &Option<Listed>) -> usize
    ensures { result ≡ listed_for listed.now }
{
    match listed {
        None => 0,
        Some(listed) => listed.weights.len(),
    }
}
