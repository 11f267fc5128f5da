// Constraints on 0 and 1.
ghost use Rattle.std.specs.Prelude.{◌≡◌, ◌↔◌, pos, IsTrue};
ghost use Rattle.std.specs.List.{All, count_by};
ghost use Rattle.std.specs.Ordering.{int_eq};
ghost use Rattle.fzn_meaning.specs.Booleans.{Passes, IsGated, IsBoolXor, IsArrayBoolXor, IsBoolClause};

use fzn_values::Entries;

/// When a gate gives 1.
#[derive(Clone, Copy, Debug, PartialEq, Eq)]
pub enum Gate {
    /// All inputs are 1.
    And,
    /// One input at least is 1.
    Or,
}

pub(crate) fn is_gated(gate: Gate, inputs: &Entries, outcome: i64) -> bool
    ensures { IsTrue result ↔ IsGated gate inputs.now outcome }
{
    (outcome == 1) == passes(gate, inputs)
}

fn passes(gate: Gate, inputs: &Entries) -> bool
    ensures { IsTrue result ↔ Passes gate inputs.now }
{
    match gate {
        Gate::And => are_ones(inputs),
        Gate::Or => inputs.contains(1),
    }
}

fn are_ones(inputs: &Entries) -> bool
    ensures { IsTrue result ↔ All (λ x. x ≡ pos 1) inputs.now }
{
    for place in 0..inputs.len() {
        if inputs.get(place) != 1 {
            return false;
        }
    }
    true
}

pub(crate) fn is_bool_xor(left: i64, right: i64, outcome: i64) -> bool
    ensures { IsTrue result ↔ IsBoolXor left right outcome }
{
    (outcome == 1) == ((left == 1) != (right == 1))
}

pub(crate) fn is_array_bool_xor(inputs: &Entries) -> bool
    ensures { IsTrue result ↔ IsArrayBoolXor inputs.now }
{
    count_ones(inputs) % 2 == 1
}

fn count_ones(inputs: &Entries) -> usize
    ensures { result ≡ count_by (λ x. int_eq x (pos 1)) inputs.now }
{
    let mut ones = 0;
    for place in 0..inputs.len() {
        if inputs.get(place) == 1 {
            ones += 1;
        }
    }
    ones
}

pub(crate) fn is_bool_clause(positive: &Entries, negative: &Entries) -> bool
    ensures { IsTrue result ↔ IsBoolClause positive.now negative.now }
{
    positive.contains(1) || negative.contains(0)
}
