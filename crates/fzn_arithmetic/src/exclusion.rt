// Products, quotients, remainders and absolute values by intervals of their places.
ghost use Rattle.std.specs.Prelude.{◌≡◌, length, IfOk, IfSome};
ghost use Rattle.fzn_values.specs.Term.{IsTerm};
ghost use Rattle.fzn_propagator.specs.Inference.{HasWritableHints};
ghost use Rattle.fzn_terms.specs.Intervals.{IsLimitedInterval};
ghost use Rattle.fzn_arithmetic.specs.Excluded.{rule_of};
ghost use Rattle.fzn_arithmetic.specs.Passes.{IsJustifiedByShape, AreFoundOfShape};

use crate::excluded::{Shape, is_excluded};
use crate::pass::Pass;
use crate::seeming::{seem_beyond, seems_excluded};
use fzn_domain::{Lit, Memory};
use fzn_list::Items;
use fzn_propagator::Findings;
use fzn_rules::Rule;
use fzn_terms::{Interval, explanation_of, interval_of};
use fzn_values::Term;
use std::alloc::Global;

/// How far an end of a quotient's or a remainder's places is moved at most, by steps of few pairs each.
const FAR: i64 = 1_048_576;

/// How often an interval can be halved.
const HALVINGS: usize = 64;

/// An interval of each place.
#[derive(Clone, Copy)]
pub(crate) struct Intervals {
    pub left: Interval,
    pub right: Interval,
    pub of: Interval,
}

/// One of the places.
#[derive(Clone, Copy)]
enum Argument {
    Left,
    Right,
    Result,
}

/// An end of an interval.
#[derive(Clone, Copy)]
enum End {
    Low,
    High,
}

impl Intervals {
    fn at(self, place: Argument) -> Interval {
        match place {
            Argument::Left => self.left,
            Argument::Right => self.right,
            Argument::Result => self.of,
        }
    }

    /// With one end at the place moved to a number.
    fn moved(mut self, place: Argument, end: End, number: i64) -> Intervals {
        let mut interval = self.at(place);
        match end {
            End::Low => interval.low = number,
            End::High => interval.high = number,
        }
        match place {
            Argument::Left => self.left = interval,
            Argument::Right => self.right = interval,
            Argument::Result => self.of = interval,
        }
        self
    }

    #[inline(always)]
    fn seem_excluded(self, shape: Shape) -> bool {
        seems_excluded(shape, self.left, self.right, self.of)
    }

    /// With one end moved towards a number as far as they are excluded: where they are, so are all that are narrower.
    #[inline(always)]
    fn widened(self, shape: Shape, place: Argument, end: End, far: i64) -> Intervals {
        let mut good = match end {
            End::Low => self.at(place).low,
            End::High => self.at(place).high,
        };
        let widest = self.moved(place, end, far);
        if good == far || widest.seem_excluded(shape) {
            return widest;
        }
        let mut bad = far;
        for _ in 0..HALVINGS {
            let middle = good.saturating_add(bad.saturating_sub(good) / 2);
            if middle == good {
                return self.moved(place, end, good);
            }
            if self.moved(place, end, middle).seem_excluded(shape) {
                good = middle;
            } else {
                bad = middle;
            }
        }
        self.moved(place, end, good)
    }

    /// With each end moved towards the declared one as far as they are excluded.
    fn weakened(self, shape: Shape, declared: Intervals) -> Intervals {
        let mut weak = self;
        for place in [Argument::Left, Argument::Right, Argument::Result] {
            let far = declared.at(place);
            weak = weak.widened(shape, place, End::Low, far.low);
            weak = weak.widened(shape, place, End::High, far.high);
        }
        weak
    }

    /// All that are excluded with one of these cut down to a part at one of its ends; or these alone, where they are.
    fn all_excluded(self, alloc: Global, shape: Shape) -> Result<Items<Intervals>, Memory> {
        let mut all = Items::new(alloc);
        if self.seem_excluded(shape) {
            all.push(self)?;
            return Ok(all);
        }
        self.add_excluded(shape, Argument::Left, &mut all)?;
        self.add_excluded(shape, Argument::Right, &mut all)?;
        self.add_excluded(shape, Argument::Result, &mut all)?;
        Ok(all)
    }

    /// Adds the same with the interval of this place cut down.
    #[inline(always)]
    fn add_excluded(
        self,
        shape: Shape,
        place: Argument,
        all: &mut Items<Intervals>,
    ) -> Result<(), Memory> {
        let whole = self.at(place);
        if whole.is_single() {
            return Ok(()); // That would be the intervals as they are.
        }
        let lowest = self.moved(place, End::High, whole.low);
        if lowest.seem_excluded(shape) && !self.is_far(shape, place, End::High, &whole.low) {
            all.push(lowest.widened(shape, place, End::High, whole.high))?;
        }
        let highest = self.moved(place, End::Low, whole.high);
        if highest.seem_excluded(shape) && !self.is_far(shape, place, End::Low, &whole.high) {
            all.push(highest.widened(shape, place, End::Low, whole.low))?;
        }
        Ok(())
    }

    /// Whether the first place or the second has no number from its other end on that is nearer than FAR: it would take hundreds of steps
    /// to go there.
    fn is_far(self, shape: Shape, place: Argument, moving: End, other: &i64) -> bool {
        let whole = self.at(place);
        if whole.high.saturating_sub(whole.low) <= FAR {
            return false;
        }
        let number = match moving {
            End::High => other.saturating_add(FAR),
            End::Low => other.saturating_sub(FAR),
        };
        let part = self.moved(place, moving, number);
        match (shape, place) {
            (_, Argument::Result) => false,
            (Shape::Remainder, Argument::Right) => true, // No closed form tells which divisors leave a remainder.
            _ => seem_beyond(shape, part.left, part.right, part.of),
        }
    }
}

/// The rule by which it follows that intervals of this shape are excluded.
pub(crate) fn rule_of(shape: Shape) -> Rule
    ensures rule { result ≡ rule_of shape }
    ensures hints { HasWritableHints result }
{
    match shape {
        Shape::Product => Rule::Box,
        Shape::Quotient | Shape::Remainder => Rule::Enum,
        Shape::Absolute => Rule::Rows,
    }
}

impl<'a> Pass<'a> {
    /// The interval of each place on the trail.
    pub(crate) fn intervals(&self) -> Intervals
        ensures left { IsLimitedInterval result.left }
        ensures right { IsLimitedInterval result.right }
    {
        Intervals {
            left: interval_of(self.trail, self.left),
            right: interval_of(self.trail, self.right),
            of: interval_of(self.trail, self.of),
        }
    }

    /// From the least to the greatest declared value of each place.
    fn declared(&self) -> Intervals {
        Intervals {
            left: self.declared_interval_of(self.left),
            right: self.declared_interval_of(self.right),
            of: self.declared_interval_of(self.of),
        }
    }

    fn declared_interval_of(&self, term: Term) -> Interval
        requires { IsTerm (length self.now.trail.now.declared) term }
    {
        match term {
            Term::Constant(k) => Interval::only(k),
            Term::Variable(var) => {
                let declared = self.trail.declared(var);
                if declared.is_empty() {
                    return Interval::only(0);
                }
                Interval {
                    low: declared.min(),
                    high: declared.max(),
                }
            }
        }
    }

    /// Finds that a place has no value at an end of its interval, of those on the trail, from where none meets the constraint.
    pub(crate) fn find_ends(&self, now: Intervals, found: &mut Findings) -> Result<(), Memory>
        requires { AreFoundOfShape self.now found.old }
        ensures { AreFoundOfShape self.now found.new }
    {
        let all = now.all_excluded(self.alloc, self.shape)?;
        for excluded in all.as_slice() {
            let weak = (*excluded).weakened(self.shape, self.declared());
            self.find_outside(weak, found)?;
        }
        Ok(())
    }

    /// Finds that some place has a value outside of its interval, where these are excluded.
    pub(crate) fn find_outside(&self, within: Intervals, found: &mut Findings) -> Result<(), Memory>
        requires { AreFoundOfShape self.now found.old }
        ensures { AreFoundOfShape self.now found.new }
    {
        let clause = self.outside(within)?;
        found.hand_over(self.number, rule_of(self.shape), clause)
    }

    /// The clause that some place has a value outside of its interval, where these are excluded.
    fn outside(&self, within: Intervals) -> Result<Option<Items<Lit>>, Memory>
        ensures { IfOk result (λ found. IfSome found (IsJustifiedByShape self.now)) }
    {
        if !is_excluded(self.shape, within.left, within.right, within.of) {
            return Ok(None);
        }
        let (left_below, left_above) = within.left.outside(self.left);
        let (right_below, right_above) = within.right.outside(self.right);
        let (of_below, of_above) = within.of.outside(self.of);
        explanation_of(
            self.alloc,
            self.trail,
            &[
                left_below,
                left_above,
                right_below,
                right_above,
                of_below,
                of_above,
            ],
        )
    }
}
