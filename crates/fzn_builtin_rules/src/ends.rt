// What places and sums give at least and at most on the present sets.
ghost use Rattle.std.specs.Prelude.{◌≡◌, ◌*◌, ◌≤◌, ◌≤ℤ◌, ◌+ℤ◌, ◌-ℤ◌, pos, false, length, unsigned_abs};
ghost use Rattle.std.specs.List.{All};
ghost use Rattle.fzn_list.specs.Limits.{longest};
ghost use Rattle.fzn_domain.specs.Narrow.{is_some_empty};
ghost use Rattle.fzn_values.specs.Term.{IsPlace};
ghost use Rattle.fzn_builtin_rules.specs.Linear.{least_sum, greatest_sum};
ghost use Rattle.fzn_builtin_rules.specs.Ends.{HasSmallEnds, AreProducts};
ghost use Rattle.fzn_builtin_rules.specs.Borrowed.{places_in};

use crate::form::Places;
use fzn_sets::{Sets, greatest_value, least_value};
use fzn_values::Place;

/// What a place gives at least and at most: its coefficient times a value of its term, so from -10^18 to 10^18.
#[derive(Clone, Copy, Debug)]
pub struct Products {
    /// The least.
    pub least: i64,
    /// The greatest.
    pub greatest: i64,
}

/// What the place gives at least and at most on the present sets, each of which has a value.
#[tactic(auto, unfolding(crate::specs::Linear::low_product, crate::specs::Linear::high_product))]
pub fn products_of(sets: &Sets, place: Place) -> Products
    requires place { IsPlace (length sets.now.present) place }
    requires nonempty { is_some_empty sets.now.present ≡ false }
    ensures { AreProducts sets.now.present place result }
{
    let low = place.coefficient * least_value(sets, place.term);
    let high = place.coefficient * greatest_value(sets, place.term);
    if place.coefficient < 0 {
        Products {
            least: high,
            greatest: low,
        }
    } else {
        Products {
            least: low,
            greatest: high,
        }
    }
}

/// The least and the greatest value of a sum, and how much more than its least any one place may give.
#[derive(Clone, Copy, Debug)]
pub struct Ends {
    /// The least value.
    pub least: i128,
    /// The greatest value.
    pub greatest: i128,
    /// At least the greatest less the least of each place.
    pub widest: i64,
}

impl Ends {
    /// The ends of a sum without places.
    pub fn of_none() -> Ends
        ensures least { result.least ≡ pos 0 }
        ensures greatest { result.greatest ≡ pos 0 }
        ensures widest { result.widest ≡ pos 0 }
    {
        Ends {
            least: 0,
            greatest: 0,
            widest: 0,
        }
    }

    /// The ends of the sum with one more place.
    pub fn plus(self, given: Products) -> Ends
        requires least { unsigned_abs self.least ≤ 200000 * 1000000000000000000 }
        requires greatest { unsigned_abs self.greatest ≤ 200000 * 1000000000000000000 }
        requires given { HasSmallEnds given }
        ensures least { result.least ≡ self.least +ℤ given.least }
        ensures greatest { result.greatest ≡ self.greatest +ℤ given.greatest }
        ensures wider { self.widest ≤ℤ result.widest }
        ensures covers { (given.greatest -ℤ given.least) ≤ℤ result.widest }
    {
        let spread = given.greatest - given.least;
        Ends {
            least: self.least + i128::from(given.least),
            greatest: self.greatest + i128::from(given.greatest),
            widest: if self.widest < spread {
                spread
            } else {
                self.widest
            },
        }
    }
}

/// The ends of the sum over the places.
pub(crate) fn ends_of(sets: &Sets, places: &Places<'_>) -> Ends
    requires places { All (IsPlace (length sets.now.present)) (places_in places.now) }
    requires short { length (places_in places.now) ≤ 2 * longest }
    requires nonempty { is_some_empty sets.now.present ≡ false }
    ensures least { result.least ≡ least_sum sets.now.present (places_in places.now) }
    ensures greatest { result.greatest ≡ greatest_sum sets.now.present (places_in places.now) }
{
    let mut ends = Ends::of_none();
    for i in 0..places.len() {
        ends = ends.plus(products_of(sets, places.place(i)));
    }
    ends
}
