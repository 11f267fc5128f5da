// Two sets against each other.
ghost use Rattle.std.specs.Prelude.{◌≡◌, ◌↔◌, ◌<◌, ◌≤ℤ◌, true, false, ℤ, pos, IsTrue, IfNone, IfSome, unsigned_abs};
ghost use Rattle.fzn_domain.specs.IntSet.{contains, size, least, greatest};
ghost use Rattle.fzn_domain.specs.Limits.{IsInLimits};
ghost use Rattle.fzn_builtin_rules.specs.Rows.{AreDisjoint, IsPartOf, AbsolutesApart, IsNextCandidate, NoCandidate, IsNextAbsolute, NoAbsoluteAbove, IsNextShared, NoneShared};

use fzn_domain::Domain;

/// Whether no number is in both sets. It goes up both by turns, so it takes no more steps than the one with fewer gaps has gaps.
pub(crate) fn are_apart(first: &Domain, second: &Domain) -> bool
    requires { 0 < size first.now }
    ensures { IsTrue result ↔ AreDisjoint first.now second.now }
{
    let mut value = first.min();
    while !second.contains(value) {
        match next_candidate(first, second, value) {
            Some(next) => value = next,
            None => return true,
        }
    }
    false
}

/// The next member of the first set that is no less than the next one of the second.
fn next_candidate(first: &Domain, second: &Domain, value: i64) -> Option<i64>
    ensures found { IfSome result (IsNextCandidate first.now second.now value) }
    ensures none { IfNone result (NoCandidate first.now second.now value) }
{
    let next = second.above(value)?;
    if first.contains(next) {
        Some(next)
    } else {
        first.above(next)
    }
}

/// Whether every number of the first set is in the second.
pub(crate) fn is_part_of(first: &Domain, second: &Domain) -> bool
    requires { 0 < size first.now }
    ensures { IsTrue result ↔ IsPartOf first.now second.now }
{
    if second.len() < first.len() {
        return false;
    }
    if has_no_gap(second) {
        spans(second, first)
    } else {
        has_each(first, second)
    }
}

/// Whether the ends of the first set lie no farther in than those of the second.
fn spans(outer: &Domain, inner: &Domain) -> bool
    requires outer { 0 < size outer.now }
    requires inner { 0 < size inner.now }
    ensures { IsTrue result ↔ ((least outer.now ≤ℤ least inner.now) × (greatest inner.now ≤ℤ greatest outer.now)) }
{
    outer.min() <= inner.min() && inner.max() <= outer.max()
}

/// Whether all numbers from the least to the greatest are in the set.
fn has_no_gap(set: &Domain) -> bool
    requires { 0 < size set.now }
    ensures { IsTrue result → (v : ℤ) → least set.now ≤ℤ v → v ≤ℤ greatest set.now → contains set.now v ≡ true }
{
    ((set.max() - set.min()) as i128) < set.len() as i128
}

/// Whether every number of the first set is in the second, one by one.
fn has_each(first: &Domain, second: &Domain) -> bool
    requires { 0 < size first.now }
    ensures { IsTrue result ↔ IsPartOf first.now second.now }
{
    let mut value = first.min();
    while second.contains(value) {
        match first.above(value) {
            Some(next) => value = next,
            None => return true,
        }
    }
    false
}

/// Whether no number of the first set has its absolute value in the second. It goes up the absolute values of both by turns, so it takes
/// no more steps than the one with fewer gaps has gaps.
pub(crate) fn absolutes_apart(first: &Domain, second: &Domain) -> bool
    ensures { IsTrue result ↔ AbsolutesApart first.now second.now }
{
    let mut absolute = 0;
    while !(second.contains(absolute) && is_absolute_in(absolute, first)) {
        match next_shared_absolute(first, second, absolute) {
            Some(next) => absolute = next,
            None => return true,
        }
    }
    false
}

/// The next number of the second set, or the next absolute value of the first set where that is not one.
fn next_shared_absolute(first: &Domain, second: &Domain, absolute: i64) -> Option<i64>
    requires { pos 0 ≤ℤ absolute }
    ensures found { IfSome result (IsNextShared first.now second.now absolute) }
    ensures none { IfNone result (NoneShared first.now second.now absolute) }
    ensures in_limits { IfSome result IsInLimits }
{
    let next = second.above(absolute)?;
    if is_absolute_in(next, first) {
        Some(next)
    } else {
        next_absolute(first, next)
    }
}

/// The least absolute value of a member that is greater than the given one.
fn next_absolute(set: &Domain, absolute: i64) -> Option<i64>
    requires in_limits { IsInLimits absolute }
    requires absolute { pos 0 ≤ℤ absolute }
    ensures found { IfSome result (IsNextAbsolute set.now absolute) }
    ensures none { IfNone result (NoAbsoluteAbove set.now absolute) }
    ensures in_limits { IfSome result IsInLimits }
{
    match (set.above(absolute), set.below(-absolute)) {
        (Some(up), Some(down)) => Some(up.min(-down)),
        (Some(up), None) => Some(up),
        (None, Some(down)) => Some(-down),
        (None, None) => None,
    }
}

/// Whether the number is the absolute value of a member.
pub(crate) fn is_absolute_in(value: i64, set: &Domain) -> bool
    requires { IsInLimits value }
    ensures yes { IsTrue result → (v : ℤ) × (contains set.now v ≡ true) × (pos (unsigned_abs v) ≡ value) }
    ensures no { result ≡ false → (v : ℤ) → contains set.now v ≡ true → pos (unsigned_abs v) ≡ value → ⊥ }
{
    value >= 0 && (set.contains(value) || set.contains(-value))
}
