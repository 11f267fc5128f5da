// Sums of two places, of which their bounds tell whether anything follows.
ghost use Rattle.std.specs.Prelude.{IfSome};
ghost use Rattle.fzn_linear.specs.Counted.{IsPairOf};

use crate::form::SumForm;
use fzn_meaning::Comparison;
use fzn_propagator::Pair;

/// The sum of the form, where it has two places and is to be at most its bound.
pub fn pair_of(form: &SumForm) -> Option<Pair>
    ensures { IfSome result (IsPairOf form.now) }
{
    match (form.comparison, form.places.as_slice()) {
        (Comparison::AtMost, [one, other]) => Some(Pair {
            one: *one,
            other: *other,
            bound: form.bound,
            switch: form.switch,
        }),
        _ => None,
    }
}
