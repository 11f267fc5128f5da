// Sums in 128 bits.
ghost use Rattle.std.specs.Prelude.{◌≡◌, ◌+◌, ◌*◌, ◌^◌, ◌<◌, ◌≤◌, ◌+ℤ◌, ◌*ℤ◌, pos, length, slice_index_or, unsigned_abs};
ghost use Rattle.std.specs.List.{All};
ghost use Rattle.fzn_list.specs.Limits.{longest};
ghost use Rattle.fzn_domain.specs.Limits.{IsSmall};
ghost use Rattle.fzn_values.specs.declared.term.Term.TheVariants.{Constant};
ghost use Rattle.fzn_values.specs.Term.{IsPlace, sum_at, weighted};

use fzn_list::Shared;
use fzn_values::{Place, Term};
use std::marker::Model;

/// Numbers with the terms that they are multiplied with, which contracts see as the list of its places. The two lists may have other
/// owners, so a sum over named lists takes no room of its own.
#[derive(Drop)]
pub struct Sum {
    numbers: Shared<Term>,
    terms: Shared<Term>,
}

impl Model for Sum {
    ghost use Rattle.std.specs.Prelude.{List};
    ghost use Rattle.fzn_values.specs.declared.term.Place.{Place};
    ghost use Rattle.fzn_values.specs.Term.{weighted};

    ghost Value = { List Place };

    ghost view = { λ it. weighted it.numbers it.terms };
}

impl Sum {
    /// Each number of the first list with the term of the second that it is multiplied with. A number that is no constant counts as 0, and
    /// the longer list is cut to the length of the shorter.
    pub fn new(numbers: Shared<Term>, terms: Shared<Term>) -> Sum
        ensures { result ≡ weighted numbers terms }
    {
        Sum { numbers, terms }
    }

    /// How many places there are.
    pub fn len(&self) -> usize
        ensures { result ≡ length self.now }
    {
        self.numbers.len().min(self.terms.len())
    }

    /// The place of this number, counted from 0.
    pub fn place(&self, place: usize) -> Place
        requires { place < length self.now }
        ensures { result ≡ slice_index_or self.now place (record { coefficient = pos 0; term = Constant (pos 0) }) }
    {
        Place {
            coefficient: self.numbers.as_slice()[place].number(),
            term: self.terms.as_slice()[place],
        }
    }
}

/// One more product in a sum: the coefficient lies from -10^9 to 10^9, the sum from -2^126 to 2^126.
pub fn plus_product(sum: i128, coefficient: i64, value: i64) -> i128
    requires sum { unsigned_abs sum ≤ 2 ^ 126 }
    requires coefficient { IsSmall coefficient }
    ensures value { result ≡ sum +ℤ coefficient *ℤ value }
    ensures bound { unsigned_abs result ≤ unsigned_abs sum + 1000000000 * 2 ^ 63 }
{
    sum + coefficient as i128 * value as i128
}

/// The sum over the places where the variables have these values.
pub fn sum_at(places: &Sum, values: &[i64]) -> i128
    requires places { All (IsPlace (length values.now)) places.now }
    requires short { length places.now ≤ longest }
    ensures { result ≡ sum_at values.now places.now }
{
    let mut sum: i128 = 0;
    for i in 0..places.len() {
        let place = places.place(i);
        sum = plus_product(sum, place.coefficient, place.term.value(values));
    }
    sum
}
