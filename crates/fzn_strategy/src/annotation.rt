// What a search annotation says.
ghost use Rattle.std.specs.Prelude.{◌≡◌, ◌<◌, ◌≤ℤ◌, ◌<ℤ◌, ◌+ℤ◌, ◌↔◌, true, ℤ, pos};
ghost use Rattle.fzn_domain.specs.IntSet.{contains, size};
ghost use Rattle.fzn_domain.specs.Limits.{IsInLimits};
ghost use Rattle.fzn_domain.specs.Literal.{is_true_at};
ghost use Rattle.fzn_strategy.specs.Tried.{IsTriedFirst};

use fzn_domain::{Domain, Lit, Op, VarId};
use fzn_list::Items;

/// Which variable of an annotation is next, among those that are not fixed (MiniZinc Handbook, search annotations).
#[derive(Clone, Copy, Debug, PartialEq, Eq)]
pub enum VarChoice {
    /// The first.
    InputOrder,
    /// One with the fewest values.
    FirstFail,
    /// One with the most values.
    AntiFirstFail,
    /// One with the least least value.
    Smallest,
    /// One with the greatest greatest value.
    Largest,
}

/// Which literal of the variable is assumed first (MiniZinc Handbook, search annotations).
#[derive(Clone, Copy, Debug, PartialEq, Eq)]
pub enum ValueChoice {
    /// The least value.
    Min,
    /// The greatest value.
    Max,
    /// At most half of the least and the greatest value together, rounded down.
    Split,
    /// Above that.
    ReverseSplit,
}

impl ValueChoice {
    /// The literal that is assumed first of a variable with these values, of which there has to be one: it is true of exactly those that
    /// the choice tries first.
    pub fn literal(self, var: VarId, domain: &Domain) -> Lit
        requires { 0 < size domain.now }
        ensures var { result.var ≡ var }
        ensures first { (value : ℤ) → contains domain.now value ≡ true → (is_true_at result value ≡ true) ↔ IsTriedFirst self domain.now value }
    {
        match self {
            ValueChoice::Min => at_most(var, domain.min()),
            ValueChoice::Max => at_least(var, domain.max()),
            ValueChoice::Split => at_most(var, half_of(&domain.min(), &domain.max())),
            ValueChoice::ReverseSplit => {
                at_least(var, half_of(&domain.min(), &domain.max()) + 1)
            }
        }
    }
}

fn at_most(var: VarId, value: i64) -> Lit
    ensures var { result.var ≡ var }
    ensures meant { (other : ℤ) → (is_true_at result other ≡ true) ↔ (other ≤ℤ value) }
{
    Lit {
        var,
        op: Op::AtMost,
        value,
    }
}

fn at_least(var: VarId, value: i64) -> Lit
    ensures var { result.var ≡ var }
    ensures meant { (other : ℤ) → (is_true_at result other ≡ true) ↔ (value ≤ℤ other) }
{
    Lit {
        var,
        op: Op::AtLeast,
        value,
    }
}

/// Half of two numbers together, rounded down.
fn half_of(low: &i64, high: &i64) -> i64
    requires low_in_limits { IsInLimits low.now }
    requires high_in_limits { IsInLimits high.now }
    requires in_order { low.now ≤ℤ high.now }
    ensures below { (value : ℤ) → (value ≤ℤ result) ↔ ((value +ℤ value) ≤ℤ (low.now +ℤ high.now)) }
    ensures small { result <ℤ i64.MAX }
{
    *low + ((*high - *low) as u64 / 2) as i64
}

/// Variables that are decided before all others that come after them, and how.
#[derive(Debug, Drop)]
pub struct Annotation {
    /// In the order of the annotation; no variable stands in two of them.
    pub vars: Items<VarId>,
    /// Which of them is next.
    pub var_choice: VarChoice,
    /// Which of its values is tried first.
    pub value_choice: ValueChoice,
}
