// The value of a variable at each value of the one that decides it.
ghost use Rattle.std.specs.Prelude.{◌≡◌, ◌*◌, ◌≤◌, ℤ, pos, ◌-ℤ◌, length, unsigned_abs};
ghost use Rattle.std.specs.List.{All};
ghost use Rattle.fzn_list.specs.Limits.{longest};
ghost use Rattle.fzn_values.specs.Term.{numbers_in};
ghost use Rattle.fzn_builtin_rules.specs.Borrowed.{places_in};
ghost use Rattle.fzn_dependence.specs.Decided.{sum_where, coefficient_besides, sum_compares, quotient, entry_number, HasSmallNumbers};

use fzn_builtin_rules::Places;
use fzn_domain::VarId;
use fzn_meaning::{Comparison, plus_product};
use fzn_values::Term;

/// A sum, by the value of one of its variables.
#[derive(Clone, Copy)]
pub struct Affine {
    /// What the constants add up to.
    pub rest: i128,
    /// What this variable is multiplied with.
    pub coefficient: i128,
    /// What all others together are multiplied with.
    pub besides: i128,
    ghost rest_bounded: { unsigned_abs rest ≤ 10000000000000000000000000000000000 },
    ghost coefficient_bounded: { unsigned_abs coefficient ≤ 1000000000000000000000000 },
}

impl Affine {
    ghost use Rattle.fzn_dependence.specs.Dependence.{affine_at};

    /// The sum over the places, by the value of this variable.
    pub(crate) fn of(var: VarId, places: &Places<'_>) -> Affine
        requires places { All HasSmallNumbers (places_in places.now) }
        requires few { length (places_in places.now) ≤ 2 * longest }
        ensures value { (value : ℤ) → affine_at result value ≡ sum_where var value (pos 0) (places_in places.now) }
        ensures besides { result.besides ≡ coefficient_besides var (places_in places.now) }
    {
        let mut rest: i128 = 0;
        let mut coefficient: i128 = 0;
        let mut besides: i128 = 0;
        for i in 0..places.len() {
            let place = places.place(i);
            match place.term {
                Term::Constant(k) => rest = plus_product(rest, place.coefficient, k),
                Term::Variable(v) if v.0 == var.0 => coefficient += place.coefficient as i128,
                Term::Variable(_) => besides += place.coefficient as i128,
            }
        }
        Affine {
            rest,
            coefficient,
            besides,
        }
    }

    /// The sum where this variable has this value, and all others are 0.
    fn at(&self, value: &i64) -> i128
        requires value { unsigned_abs value.now ≤ 10000000000 }
        ensures value { result ≡ affine_at self.now value.now }
        ensures bounded { unsigned_abs result ≤ 100000000000000000000000000000000000 }
    {
        self.rest + self.coefficient * *value as i128
    }
}

/// What a variable is at each value of another one.
#[derive(Clone, Copy)]
pub enum Dependence<'a> {
    /// The entry whose place, counted from 1, is the value.
    Entry(&'a [Term]),
    /// 1 where the sum compares so with the bound, and else 0.
    Switch(Affine, Comparison, i64),
    /// What the sum at the value lacks of the bound, divided by what all others are multiplied with, if that is a whole number.
    Equation(Affine, i64),
}

impl<'a> Dependence<'a> {
    ghost use Rattle.fzn_dependence.specs.Dependence.{dependent_at};

    /// What the variable is where the other one has this value, from -10^10 to 10^10; `None` where that decides no number.
    pub fn at(&self, value: &i64) -> Option<i128>
        requires value { unsigned_abs value.now ≤ 10000000000 }
        ensures { result ≡ dependent_at self.now value.now }
    {
        match self {
            Dependence::Entry(entries) => entry_number(entries, value),
            Dependence::Switch(sum, comparison, bound) => {
                Some(sum_compares(*comparison, &sum.at(value), bound) as i128)
            }
            Dependence::Equation(sum, bound) => {
                quotient(*bound as i128 - sum.at(value), sum.besides)
            }
        }
    }
}

/// The number of the term with this number, counted from 1.
fn entry_number(terms: &[Term], place: &i64) -> Option<i128>
    requires place { unsigned_abs place.now ≤ 10000000000 }
    ensures { result ≡ entry_number (numbers_in terms.now) (place.now -ℤ pos 1) }
{
    if *place < 1 {
        return None;
    }
    let term = terms.get((*place - 1) as usize)?;
    Some(term.number() as i128)
}

fn sum_compares(comparison: Comparison, sum: &i128, bound: &i64) -> bool
    ensures { result ≡ sum_compares comparison sum.now bound.now }
{
    let bound = *bound as i128;
    match comparison {
        Comparison::AtMost => *sum <= bound,
        Comparison::Equal => *sum == bound,
        Comparison::NotEqual => *sum != bound,
    }
}

/// The quotient, where it is a whole number.
fn quotient(number: i128, divisor: i128) -> Option<i128>
    requires number { unsigned_abs number ≤ 1000000000000000000000000000000000000 }
    ensures { result ≡ quotient number divisor }
{
    if divisor != 0 && number % divisor == 0 {
        Some(number / divisor)
    } else {
        None
    }
}
