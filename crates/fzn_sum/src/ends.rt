// The ends of places and sums on a trail.
ghost use Rattle.std.specs.Prelude.{◌≡◌, ◌*◌, ◌≤◌, ◌≤ℤ◌, ◌+ℤ◌, ◌-ℤ◌, List, length, unsigned_abs, IsTrue};
ghost use Rattle.std.specs.List.{All};
ghost use Rattle.fzn_domain.specs.IntSet.{IntSet};
ghost use Rattle.fzn_domain.specs.Limits.{IsInLimits};
ghost use Rattle.fzn_domain.specs.Narrow.{NoneEmpty};
ghost use Rattle.fzn_values.specs.declared.term.Place.{Place};
ghost use Rattle.fzn_values.specs.Term.{IsTerm, IsPlace};
ghost use Rattle.fzn_sets.specs.Terms.{least_value, greatest_value};
ghost use Rattle.fzn_builtin_rules.specs.Ends.{HasSmallEnds, AreProducts};
ghost use Rattle.fzn_builtin_rules.specs.Linear.{low_end, low_product, least_sum};
ghost use Rattle.fzn_propagator.specs.Inference.{IsTight};
ghost use Rattle.fzn_sum.specs.Ends.{AreEnds};
ghost use Rattle.fzn_sum.specs.Opposite.{opposites};

use fzn_builtin_rules::{Ends, Products, products_of};
use fzn_terms::{greatest_of, least_of};
use fzn_trail::Trail;
use fzn_values::{Place, Term};

/// The sum of so few products, each from -10^18 to 10^18, fits 64 bits.
const FEW: usize = 8;

/// The ends of the sum of few places.
#[derive(Clone, Copy)]
struct FewEnds {
    least: i64,
    greatest: i64,
    /// At least the greatest less the least of each place.
    widest: i64,
}

impl FewEnds {
    /// The ends of the sum with one more place, where it has fewer than eight.
    fn plus(self, given: Products) -> FewEnds
        requires least { unsigned_abs self.least ≤ 7 * 1000000000000000000 }
        requires greatest { unsigned_abs self.greatest ≤ 7 * 1000000000000000000 }
        requires given { HasSmallEnds given }
        ensures least { result.least ≡ self.least +ℤ given.least }
        ensures greatest { result.greatest ≡ self.greatest +ℤ given.greatest }
        ensures wider { self.widest ≤ℤ result.widest }
        ensures covers { (given.greatest -ℤ given.least) ≤ℤ result.widest }
    {
        let spread = given.greatest - given.least;
        FewEnds {
            least: self.least + given.least,
            greatest: self.greatest + given.greatest,
            widest: if self.widest < spread {
                spread
            } else {
                self.widest
            },
        }
    }
}

/// The least and the greatest value of the term.
fn values_of(trail: &Trail, term: Term) -> (i64, i64)
    requires term { IsTerm (length trail.now.declared) term }
    requires filled { NoneEmpty trail.now.sets }
    ensures least { result.0 ≡ least_value trail.now.sets term }
    ensures greatest { result.1 ≡ greatest_value trail.now.sets term }
    ensures in_limits { IsInLimits result.0 × IsInLimits result.1 }
{
    match term {
        Term::Constant(value) => (value, value),
        Term::Variable(var) => {
            let domain = trail.domain(var);
            (domain.min(), domain.max())
        }
    }
}

/// What the place gives at least and at most. `products_of` says the same, but looks its variable up twice.
fn given_by(trail: &Trail, place: Place) -> Products
    requires place { IsPlace (length trail.now.declared) place }
    requires filled { NoneEmpty trail.now.sets }
    ensures { AreProducts trail.now.sets place result }
{
    let (low, high) = values_of(trail, place.term);
    let one = place.coefficient * low;
    let other = place.coefficient * high;
    if place.coefficient < 0 {
        Products {
            least: other,
            greatest: one,
        }
    } else {
        Products {
            least: one,
            greatest: other,
        }
    }
}

/// The value at which the place gives least.
pub fn low_end(trail: &Trail, place: Place) -> i64
    requires term { IsTerm (length trail.now.declared) place.term }
    requires filled { NoneEmpty trail.now.sets }
    ensures value { result ≡ low_end trail.now.sets place }
    ensures in_limits { IsInLimits result }
{
    if place.coefficient < 0 {
        greatest_of(trail, place.term)
    } else {
        least_of(trail, place.term)
    }
}

/// The least that a place gives.
#[tactic(auto, unfolding(fzn_builtin_rules::specs::Linear::low_product))]
pub fn low_product(trail: &Trail, place: Place) -> i128
    requires place { IsPlace (length trail.now.declared) place }
    requires filled { NoneEmpty trail.now.sets }
    ensures value { result ≡ low_product trail.now.sets place }
    ensures bounded { unsigned_abs result ≤ 1000000000000000000 }
{
    i128::from(place.coefficient) * i128::from(low_end(trail, place))
}

/// The least sum of the places.
pub fn least_sum(trail: &Trail, places: &[Place]) -> i128
    requires places { All (IsPlace (length trail.now.declared)) places.now }
    requires short { length places.now ≤ 200000 }
    requires filled { NoneEmpty trail.now.sets }
    ensures value { result ≡ least_sum trail.now.sets places.now }
    ensures bounded { unsigned_abs result ≤ 200000 * 1000000000000000000 }
{
    let mut sum = 0;
    for place in places {
        sum += low_product(trail, *place);
    }
    sum
}

/// The ends of the sum of at most 200,000 places.
pub fn ends_of(trail: &Trail, places: &[Place]) -> Ends
    requires places { All (IsPlace (length trail.now.declared)) places.now }
    requires short { length places.now ≤ 200000 }
    requires filled { NoneEmpty trail.now.sets }
    ensures { AreEnds trail.now.sets places.now result }
{
    if places.len() <= FEW {
        ends_of_few(trail, places)
    } else {
        ends_of_many(trail, places)
    }
}

/// Those of a sum of many places.
fn ends_of_many(trail: &Trail, places: &[Place]) -> Ends
    requires places { All (IsPlace (length trail.now.declared)) places.now }
    requires short { length places.now ≤ 200000 }
    requires filled { NoneEmpty trail.now.sets }
    ensures { AreEnds trail.now.sets places.now result }
{
    let sets = trail.sets();
    let mut ends = Ends::of_none();
    for place in places {
        ends = ends.plus(products_of(sets, *place));
    }
    ends
}

/// Those of a sum of few places. Their products have room in 64 bits, where adding takes fewer instructions.
fn ends_of_few(trail: &Trail, places: &[Place]) -> Ends
    requires places { All (IsPlace (length trail.now.declared)) places.now }
    requires few { length places.now ≤ 8 }
    requires filled { NoneEmpty trail.now.sets }
    ensures { AreEnds trail.now.sets places.now result }
{
    let mut ends = FewEnds {
        least: 0,
        greatest: 0,
        widest: 0,
    };
    for place in places {
        ends = ends.plus(given_by(trail, *place));
    }
    Ends {
        least: i128::from(ends.least),
        greatest: i128::from(ends.greatest),
        widest: ends.widest,
    }
}

/// The ends of the opposite sum, from those of the sum of at most 200,000 places.
pub fn turned(ends: Ends) -> Ends
    requires least { unsigned_abs ends.least ≤ 200000 * 1000000000000000000 }
    requires greatest { unsigned_abs ends.greatest ≤ 200000 * 1000000000000000000 }
    ensures { (sets : List IntSet) (places : List Place) → AreEnds sets places ends → AreEnds sets (opposites places) result }
{
    Ends {
        least: -ends.greatest,
        greatest: -ends.least,
        widest: ends.widest,
    }
}

/// Whether a sum of at most 200,000 places that has these ends stays within the bound with any one place at its other end: `false` where the
/// ends do not say so.
pub fn is_tight(ends: Ends, bound: i64) -> bool
    requires { unsigned_abs ends.least ≤ 200000 * 1000000000000000000 }
    ensures { IsTrue result → (sets : List IntSet) (places : List Place) → AreEnds sets places ends → IsTight sets places bound }
{
    ends.least + i128::from(ends.widest) <= i128::from(bound)
}
