// What is listed for the rows of a table, and which weights are light.
ghost use Rattle.std.specs.Prelude.{◌≡◌, ◌<◌, ℤ, IsTrue, IfSome, Some, None, false, length, slice_index_or};
ghost use Rattle.fzn_rules.specs.Least.{Reaches};

use fzn_meaning::TablePart;

/// What is listed for row r, counted from 0. `None` where it is barred.
pub fn row_weight(table: &TablePart, r: usize) -> Option<i128>
    requires row { r < length table.now.weights }
    ensures value { result ≡ slice_index_or table.now.weights r None }
{
    match table.weights.as_slice()[r] {
        None => None,
        Some(weight) => Some(weight as i128),
    }
}

/// Whether the weight is there and less than the level; where there is no level, whether it is there.
pub fn is_light(weight: Option<i128>, level: Option<i128>) -> bool
    ensures light { IsTrue result → IfSome weight (λ w. Reaches level w → ⊥) }
    ensures some { IsTrue result → (w : ℤ) × (weight ≡ Some w) }
    ensures heavy { result ≡ false → IfSome weight (Reaches level) }
{
    match (weight, level) {
        (None, _) => false,
        (Some(_), None) => true,
        (Some(weight), Some(level)) => weight < level,
    }
}
