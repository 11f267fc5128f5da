// Sums compared with a number.
ghost use Rattle.std.specs.Prelude.{◌≡◌, ◌↔◌, IsTrue};
ghost use Rattle.fzn_meaning.specs.Comparisons.{IsSwitched};
ghost use Rattle.fzn_meaning.specs.Linear.{IsLinear};

use crate::comparison::is_switched;
use crate::relation::Comparison;

pub(crate) fn is_linear(comparison: Comparison, sum: i128, bound: i64) -> bool
    ensures { IsTrue result ↔ IsLinear comparison sum bound }
{
    match comparison {
        Comparison::AtMost => sum <= bound as i128,
        Comparison::Equal => sum == bound as i128,
        Comparison::NotEqual => sum != bound as i128,
    }
}

pub(crate) fn is_switched_linear(
    comparison: Comparison,
    sum: i128,
    bound: i64,
    switch: Option<i64>,
) -> bool
    ensures { IsTrue result ↔ IsSwitched switch (IsLinear comparison sum bound) }
{
    is_switched(switch, is_linear(comparison, sum, bound))
}
