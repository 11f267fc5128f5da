// The propagator of two terms that are compared, and have to be equal perhaps.
ghost use Rattle.std.specs.Prelude.{◌≡◌, List, length, IfOk};
ghost use Rattle.fzn_domain.specs.IntSet.{IntSet};
ghost use Rattle.fzn_meaning.specs.declared.constraint.Constraint.{Constraint};
ghost use Rattle.fzn_meaning.specs.declared.constraint.Constraint.TheVariants.{Compare};
ghost use Rattle.fzn_meaning.specs.Meaning.{IsSwitch};
ghost use Rattle.fzn_values.specs.Term.{IsTerm};
ghost use Rattle.fzn_propagator.specs.declared.cost.Cost.TheVariants as cost;
ghost use Rattle.fzn_propagator.specs.Subscriptions.{terms_of, AreHeard};
ghost use Rattle.fzn_linear.specs.Equality.{equality_number, EqualityIsFor, EqualityFits};
ghost use Rattle.fzn_linear.specs.Wakes.{sum_subscriptions};

use crate::sum::SumPropagator;
use crate::wake::subscriptions_of;
use fzn_domain::Memory;
use fzn_equality::infer_equal;
use fzn_meaning::Relation;
use fzn_propagator::{Cost, Findings, Inference, Propagator, Subscriptions};
use fzn_rules::Rule;
use fzn_trail::Trail;
use fzn_values::Term;
use std::alloc::Global;

/// The difference of two terms compares so with its bound, and where the terms have to be equal each has only values of the other.
#[derive(Debug, Drop)]
pub struct EqualityPropagator {
    /// The propagator of their difference, which has the number and the form of the constraint.
    pub sum: SumPropagator,
    /// How the constraint compares the left term with the right one.
    pub relation: Relation,
    /// The left term of the comparison.
    pub left: Term,
    /// The right term of the comparison.
    pub right: Term,
    /// What is 1 where the terms compare so, and else 0; none where they have to.
    pub switch: Option<Term>,
}

impl Propagator for EqualityPropagator {
    ghost number = { equality_number };

    ghost is_for = { EqualityIsFor };

    ghost fits = { EqualityFits };

    ghost costs = { λ _. cost.Small };

    fn subscriptions(&self, alloc: Global) -> Result<Subscriptions, Memory>
        requires fits { (declared : List IntSet) × EqualityFits self.now declared }
        ensures value { IfOk result (λ subscriptions. subscriptions ≡ sum_subscriptions self.now.sum) }
        ensures heard { IfOk result (λ subscriptions. (constraint : Constraint) → EqualityIsFor self.now constraint → AreHeard subscriptions (terms_of constraint)) }
    {
        subscriptions_of(alloc, &self.sum)
    }

    fn cost(&self) -> Cost
        ensures { result ≡ cost.Small }
    {
        Cost::Small
    }

    fn propagate(&self, alloc: Global, trail: &Trail, found: &mut Findings) -> Result<(), Memory> {
        self.sum.infer(alloc, trail, found)?;
        if !found.is_empty() {
            return Ok(());
        }
        let (left, right, switch) = (self.left, self.right, self.switch);
        let Some(clause) = infer_equal(alloc, trail, self.relation, left, right, switch)? else {
            return Ok(());
        };
        found.push(Inference {
            constraint: self.sum.number,
            rule: Rule::Rows,
            clause,
        })?;
        Ok(())
    }
}
