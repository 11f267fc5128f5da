// Quotients and remainders of few pairs: by the rule `enum`.
ghost use Rattle.std.specs.Prelude.{pos, ◌≤ℤ◌};
ghost use Rattle.fzn_terms.specs.Intervals.{IsLimitedInterval};
ghost use Rattle.fzn_arithmetic.specs.Passes.{AreFoundOfShape};

use crate::excluded::{Shape, are_few};
use crate::exclusion::Intervals;
use crate::pass::Pass;
use fzn_domain::{Domain, GREATEST_VALUE, LEAST_VALUE, Lit, Memory, Op, VarId};
use fzn_fixed::{Image, of_operation};
use fzn_list::Items;
use fzn_meaning::Operation;
use fzn_propagator::Findings;
use fzn_terms::{Interval, MOST_VALUES, interval_of, is_thinned};
use fzn_values::Term;
use std::alloc::Global;

impl<'a> Pass<'a> {
    /// Finds what the ends of the places show, else which values of the result are given by no pair.
    pub(crate) fn find_quotients(&self, found: &mut Findings) -> Result<(), Memory>
        requires { AreFoundOfShape self.now found.old }
        ensures { AreFoundOfShape self.now found.new }
    {
        let now = self.intervals();
        if !are_few(now.left, now.right) && !now.is_last_open() {
            return Ok(());
        }
        let before = found.len();
        self.find_ends(now, found)?;
        if before < found.len() {
            return Ok(());
        }
        self.part_results(now, found)
    }

    /// Finds of each of these values that the result has another, or one of the others a value outside of its interval.
    fn part_results(&self, now: Intervals, found: &mut Findings) -> Result<(), Memory>
        requires left { IsLimitedInterval now.left }
        requires right { IsLimitedInterval now.right }
        requires before { AreFoundOfShape self.now found.old }
        ensures { AreFoundOfShape self.now found.new }
    {
        let values = self.values_of_none(now.left, now.right)?;
        for value in values.as_slice() {
            let of = Interval::only(*value);
            self.find_outside(Intervals { of, ..now }, found)?;
        }
        Ok(())
    }

    /// The values of the result, where it is narrow and the pairs are few, that no pair gives: so many that the pairs which rule them out
    /// are about as few.
    fn values_of_none(&self, left: Interval, right: Interval) -> Result<Items<i64>, Memory>
        requires left { IsLimitedInterval left }
        requires right { IsLimitedInterval right }
    {
        let Term::Variable(var) = self.of else {
            return Ok(Items::new(self.alloc));
        };
        let pairs = pair_count(left, right);
        let ends = interval_of(self.trail, self.of);
        if !are_few(left, right) || !is_thinned(self.trail, self.of, ends, pairs as usize) {
            return Ok(Items::new(self.alloc));
        }
        let mut rest = self.trail.domain(var).copy()?;
        take_all_given(self.shape, left, right, var, &mut rest)?;
        first_values(self.alloc, &rest, pairs)
    }
}

impl Intervals {
    /// Whether at most one of the intervals has several numbers.
    fn is_last_open(self) -> bool {
        let (left, right) = (self.left.is_single(), self.right.is_single());
        left && right || (left || right) && self.of.is_single()
    }
}

/// How many pairs of few there are.
fn pair_count(left: Interval, right: Interval) -> i64
    requires left { IsLimitedInterval left }
    requires right { IsLimitedInterval right }
    ensures { pos 1 ≤ℤ result }
{
    let (wide, high) = (left.high - left.low + 1, right.high - right.low + 1);
    wide.saturating_mul(high).max(1)
}

/// Takes what each number of the first interval gives with those of the second out of the set, until it has no more.
fn take_all_given(
    shape: Shape,
    left: Interval,
    right: Interval,
    var: VarId,
    rest: &mut Domain,
) -> Result<(), Memory>
    requires left { IsLimitedInterval left }
    requires right { IsLimitedInterval right }
{
    for number in left.low..left.high + 1 {
        for divisor in right.low..right.high + 1 {
            if let Image::Only(value) = image_at(shape, number, divisor)
                && rest.contains(value)
            {
                rest.restrict(Lit {
                    var,
                    op: Op::NotEqual,
                    value,
                })?;
            }
        }
        if rest.is_empty() {
            return Ok(());
        }
    }
    Ok(())
}

/// What the two numbers give, where both are numbers of a domain.
fn image_at(shape: Shape, left: i64, right: i64) -> Image {
    if left < LEAST_VALUE
        || GREATEST_VALUE < left
        || right < LEAST_VALUE
        || GREATEST_VALUE < right
    {
        return Image::Fails;
    }
    match shape {
        Shape::Quotient => of_operation(Operation::Quotient, &left, &right),
        Shape::Remainder => of_operation(Operation::Remainder, &left, &right),
        _ => Image::Fails, // Not asked.
    }
}

/// The first of these values, so many at most that few pairs rule them out, where it takes so many for each.
fn first_values(alloc: Global, rest: &Domain, pairs: i64) -> Result<Items<i64>, Memory>
    requires { pos 1 ≤ℤ pairs }
{
    let most = (MOST_VALUES / pairs).max(1);
    let mut values = Items::new(alloc);
    let mut passed = i64::MIN;
    for _ in 0..most {
        let Some(value) = rest.above(passed) else {
            return Ok(values);
        };
        values.push(value)?;
        passed = value;
    }
    Ok(values)
}
