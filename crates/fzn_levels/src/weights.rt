// What the values of a list weigh, and weights together.
ghost use Rattle.std.specs.Prelude.{◌≡◌, ◌<◌, ◌≤◌, pos, ◌+ℤ◌, ◌≤ℤ◌, length, IfSome, Some};
ghost use Rattle.std.specs.List.{All};
ghost use Rattle.fzn_list.specs.Limits.{longest};
ghost use Rattle.fzn_meaning.specs.Separable.{weight_at, IsCoefficient, IsWeightList};
ghost use Rattle.fzn_levels.specs.Levels.{IsWeight, sum_of};

use fzn_meaning::{Listed, VariablePart, weighed};

/// The value that is listed at an index, counted from 0 and below the number of weights that are listed.
pub fn value_at(listed: &Listed, i: usize) -> i64
    requires listed { IsWeightList listed.now }
    requires inside { i < length listed.now.weights }
    ensures value { result ≡ listed.now.low +ℤ pos i }
    ensures low { listed.now.low ≤ℤ result }
    ensures high { result ≤ℤ pos 1000065536 }
{
    listed.low + i as i64
}

/// What the part, which has this list, weighs at the value that is listed at an index, counted from 0. `None` where it is barred. As each
/// weight of a part it lies at most 10^12 * 2^63 + 10^18 from 0.
pub fn entry_weight(part: &VariablePart, listed: &Listed, i: usize) -> Option<i128>
    requires coefficient { IsCoefficient part.now.coefficient }
    requires of { part.now.listed ≡ Some listed.now }
    requires listed { IsWeightList listed.now }
    requires inside { i < length listed.now.weights }
    ensures value { result ≡ weight_at part.now (listed.now.low +ℤ pos i) }
    ensures bounded { IfSome result IsWeight }
{
    weighed(
        part.coefficient,
        value_at(listed, i),
        listed.weights.as_slice()[i],
    )
}

/// What the weights, of which there are no more than a list may have entries, come to together.
pub fn sum_of(weights: &[i128]) -> i128
    requires few { length weights.now ≤ longest }
    requires bounded { All IsWeight weights.now }
    ensures { result ≡ sum_of weights.now }
{
    let mut total: i128 = 0;
    for weight in weights {
        total += *weight;
    }
    total
}
