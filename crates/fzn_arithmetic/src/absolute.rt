// Absolute values: by the rule `rows`.
ghost use Rattle.std.specs.Prelude.{◌≡◌, length, IfOk, IfSome};
ghost use Rattle.fzn_domain.specs.Limits.{IsInLimits};
ghost use Rattle.fzn_domain.specs.Narrow.{NoneEmpty};
ghost use Rattle.fzn_meaning.specs.declared.constraint.Constraint.TheVariants as constraint;
ghost use Rattle.fzn_values.specs.Term.{IsTerm};
ghost use Rattle.fzn_propagator.specs.Inference.{AreFoundOf};
ghost use Rattle.fzn_arithmetic.specs.declared.excluded.Shape.TheVariants.{Absolute};
ghost use Rattle.fzn_arithmetic.specs.Passes.{IsJustifiedByShape, AreFoundOfShape};

use crate::excluded::Shape;
use crate::exclusion::rule_of;
use crate::pass::Pass;
use fzn_domain::{Lit, Memory};
use fzn_list::Items;
use fzn_propagator::Findings;
use fzn_terms::{
    Claim, MOST_VALUES, explanation_of, interval_of, is_thinned_beside, may_be, next_value,
};
use fzn_trail::Trail;
use fzn_values::Term;
use std::alloc::Global;

/// Appends to `found` clauses that are false or force a literal each, where the ends of the two terms show some, else the values of the
/// first, else those of the second.
pub fn infer_absolute_value(
    alloc: Global,
    trail: &Trail,
    number: u64,
    of: Term,
    absolute: Term,
    found: &mut Findings,
) -> Result<(), Memory>
    requires of { IsTerm (length trail.now.declared) of }
    requires absolute { IsTerm (length trail.now.declared) absolute }
    requires filled { NoneEmpty trail.now.sets }
    requires before { AreFoundOf number (constraint.IntAbs of absolute) trail.now found.old }
    ensures { AreFoundOf number (constraint.IntAbs of absolute) trail.now found.new }
{
    let pass = Pass {
        alloc,
        number,
        trail,
        shape: Shape::Absolute,
        left: of,
        right: Term::Constant(0),
        of: absolute,
    };
    pass.find_absolutes(found)
}

impl<'a> Pass<'a> {
    /// Finds what the ends of the two terms show, else the values of the first, else those of the second.
    pub(crate) fn find_absolutes(&self, found: &mut Findings) -> Result<(), Memory>
        requires absolute { self.now.shape ≡ Absolute }
        requires before { AreFoundOfShape self.now found.old }
        ensures { AreFoundOfShape self.now found.new }
    {
        let before = found.len();
        self.find_ends(self.intervals(), found)?;
        if before < found.len() {
            return Ok(());
        }
        self.part_values(found)?;
        if before < found.len() {
            return Ok(());
        }
        self.part_absolutes(found)
    }

    /// Finds that the first term has not a value whose absolute value the other has not, where it is narrow.
    fn part_values(&self, found: &mut Findings) -> Result<(), Memory>
        requires absolute { self.now.shape ≡ Absolute }
        requires before { AreFoundOfShape self.now found.old }
        ensures { AreFoundOfShape self.now found.new }
    {
        let ends = interval_of(self.trail, self.left);
        if !is_thinned_beside(self.trail, self.left, ends, &[self.of]) {
            return Ok(());
        }
        let mut passed = i64::MIN;
        for _ in 0..MOST_VALUES {
            let Some(value) = next_value(self.trail, self.left, &passed) else {
                return Ok(());
            };
            let clause = self.other_value_or_absolute(value)?;
            found.hand_over(self.number, rule_of(self.shape), clause)?;
            passed = value;
        }
        Ok(())
    }

    /// Finds that the absolute value is not one that no value of the other term has, where it is narrow.
    fn part_absolutes(&self, found: &mut Findings) -> Result<(), Memory>
        requires absolute { self.now.shape ≡ Absolute }
        requires before { AreFoundOfShape self.now found.old }
        ensures { AreFoundOfShape self.now found.new }
    {
        let ends = interval_of(self.trail, self.of);
        if !is_thinned_beside(self.trail, self.of, ends, &[self.left]) {
            return Ok(());
        }
        let mut passed = i64::MIN;
        for _ in 0..MOST_VALUES {
            let Some(value) = next_value(self.trail, self.of, &passed) else {
                return Ok(());
            };
            let clause = self.value_or_other_absolute(value)?;
            found.hand_over(self.number, rule_of(self.shape), clause)?;
            passed = value;
        }
        Ok(())
    }

    /// The clause that the term is not this value, or the other is its absolute value. Nothing where the other may be that.
    fn other_value_or_absolute(&self, value: i64) -> Result<Option<Items<Lit>>, Memory>
        requires absolute { self.now.shape ≡ Absolute }
        requires value { IsInLimits value }
        ensures { IfOk result (λ found. IfSome found (IsJustifiedByShape self.now)) }
    {
        let absolute = value.abs();
        if may_be(self.trail, self.of, &absolute) {
            return Ok(None);
        }
        let other = Claim::other_than(self.left, value);
        let equal = Claim::equal(self.of, absolute);
        explanation_of(self.alloc, self.trail, &[other, equal])
    }

    /// The clause that the absolute value is not this value, or the other term is it or its opposite. Nothing where it may be one of them.
    fn value_or_other_absolute(&self, value: i64) -> Result<Option<Items<Lit>>, Memory>
        requires absolute { self.now.shape ≡ Absolute }
        requires value { IsInLimits value }
        ensures { IfOk result (λ found. IfSome found (IsJustifiedByShape self.now)) }
    {
        let negated = -value;
        if may_be(self.trail, self.left, &value) || may_be(self.trail, self.left, &negated) {
            return Ok(None);
        }
        let other = Claim::other_than(self.of, value);
        let equal = Claim::equal(self.left, value);
        let opposite = Claim::equal(self.left, negated);
        explanation_of(self.alloc, self.trail, &[other, equal, opposite])
    }
}
