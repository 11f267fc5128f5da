// What a step says of the objective.
ghost use Rattle.std.specs.Prelude.{◌≡◌};
ghost use Rattle.fzn_meaning.specs.WellFormed.{IsWellFormed};
ghost use Rattle.fzn_bound.specs.Known.{clause_given};
ghost use Rattle.fzn_bound.specs.Said.{bound_after, has_side, is_objective, said_in, said_of, stronger, IsBestDeclared, IsGreatestMember, IsLeastMember};

use fzn_cert::Step;
use fzn_domain::{Domain, Lit, Op, VarId};
use fzn_meaning::{Goal, Model};

/// The best value of the objective's declared set. None where that is empty, and none of a satisfaction.
pub fn declared_bound(model: &Model) -> Option<i64>
    requires { IsWellFormed model.now }
    ensures { IsBestDeclared model.now.goal model.now.vars result }
{
    match model.goal {
        Goal::Satisfy => None,
        Goal::Minimize(var) => least(&model.vars.as_slice()[var.0 - 1].domain),
        Goal::Maximize(var) => greatest(&model.vars.as_slice()[var.0 - 1].domain),
    }
}

fn least(domain: &Domain) -> Option<i64>
    ensures { IsLeastMember domain.now result }
{
    if domain.is_empty() {
        None
    } else {
        Some(domain.min())
    }
}

fn greatest(domain: &Domain) -> Option<i64>
    ensures { IsGreatestMember domain.now result }
{
    if domain.is_empty() {
        None
    } else {
        Some(domain.max())
    }
}

/// The bound after one more accepted step: the stronger of it and what the step says.
pub fn bound_after(goal: Goal, bound: Option<i64>, step: &Step) -> Option<i64>
    ensures { result ≡ bound_after goal bound step.now }
{
    match (bound, said_by(goal, step)) {
        (Some(bound), Some(said)) => Some(stronger(goal, bound, said)),
        _ => bound,
    }
}

/// The bound that the step's clause gives the objective, if it gives one.
fn said_by(goal: Goal, step: &Step) -> Option<i64>
    ensures { result ≡ said_in goal (clause_given step.now) }
{
    match step {
        Step::Infer(inference) => said_in(goal, inference.clause.as_slice()),
        Step::Resolve { clause, .. } => said_in(goal, clause.as_slice()),
        Step::Solution(_) | Step::Delete { .. } => None,
    }
}

/// A clause of one literal on the objective may give a bound, any other none.
fn said_in(goal: Goal, clause: &[Lit]) -> Option<i64>
    ensures { result ≡ said_in goal clause.now }
{
    match clause.split_first() {
        Some((lit, further)) if further.is_empty() => said_of(goal, *lit),
        _ => None,
    }
}

fn said_of(goal: Goal, lit: Lit) -> Option<i64>
    ensures { result ≡ said_of goal lit }
{
    if is_objective(goal, lit.var) && has_side(goal, lit.op) {
        Some(lit.value)
    } else {
        None
    }
}

fn is_objective(goal: Goal, var: VarId) -> bool
    ensures { result ≡ is_objective goal var }
{
    match goal {
        Goal::Satisfy => false,
        Goal::Minimize(objective) | Goal::Maximize(objective) => var.0 == objective.0,
    }
}

/// Whether a literal with this operator has a best value at which it is true.
fn has_side(goal: Goal, op: Op) -> bool
    ensures { result ≡ has_side goal op }
{
    match (goal, op) {
        (Goal::Minimize(_), Op::AtLeast | Op::Equal) => true,
        (Goal::Maximize(_), Op::AtMost | Op::Equal) => true,
        _ => false,
    }
}

/// The bound that says more.
fn stronger(goal: Goal, first: i64, second: i64) -> i64
    ensures { result ≡ stronger goal first second }
{
    match goal {
        Goal::Satisfy => first,
        Goal::Minimize(_) => first.max(second),
        Goal::Maximize(_) => first.min(second),
    }
}
