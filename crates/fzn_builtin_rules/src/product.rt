// The rule `box`: the bounds of a product exclude each value of the result.
ghost use Rattle.std.specs.Prelude.{◌≡◌, ◌↔◌, ◌*ℤ◌, ◌<ℤ◌, IsTrue, false, length};
ghost use Rattle.std.specs.List.{All};
ghost use Rattle.fzn_domain.specs.Narrow.{is_some_empty};
ghost use Rattle.fzn_domain.specs.Limits.{IsInLimits};
ghost use Rattle.fzn_values.specs.Term.{IsTerm};
ghost use Rattle.fzn_meaning.specs.Meaning.{IsWellFormedConstraint};
ghost use Rattle.fzn_sets.specs.Terms.{least_value, greatest_value};
ghost use Rattle.fzn_builtin_rules.specs.Product.{corners, IsProductOut, IsArithmeticOut, IsBoxMet};

use fzn_meaning::{Constraint, Operation};
use fzn_sets::{Sets, greatest_value, least_value};
use fzn_values::Term;

/// Whether the bounds of a product exclude each value of the result. No set may be empty. `false` for any constraint but `int_times`.
#[tactic(auto, unfolding(crate::specs::Product::IsBoxMet, fzn_meaning::specs::Meaning::IsWellFormedConstraint))]
pub fn is_box_met(constraint: &Constraint, sets: &Sets) -> bool
    requires constraint { IsWellFormedConstraint (length sets.now.present) constraint.now }
    requires nonempty { is_some_empty sets.now.present ≡ false }
    ensures { IsTrue result ↔ IsBoxMet constraint.now sets.now.present }
{
    match constraint {
        Constraint::Arithmetic {
            operation,
            left,
            right,
            result,
        } => { is_arithmetic_out(sets, *operation, *left, *right, *result) }
        _ => false,
    }
}

fn is_arithmetic_out(sets: &Sets, operation: Operation, left: Term, right: Term, of: Term) -> bool
    requires left { IsTerm (length sets.now.present) left }
    requires right { IsTerm (length sets.now.present) right }
    requires of { IsTerm (length sets.now.present) of }
    requires nonempty { is_some_empty sets.now.present ≡ false }
    ensures { IsTrue result ↔ IsArithmeticOut sets.now.present operation left right of }
{
    match operation {
        Operation::Times => is_product_out(sets, left, right, of),
        _ => false,
    }
}

fn is_product_out(sets: &Sets, left: Term, right: Term, of: Term) -> bool
    requires left { IsTerm (length sets.now.present) left }
    requires right { IsTerm (length sets.now.present) right }
    requires of { IsTerm (length sets.now.present) of }
    requires nonempty { is_some_empty sets.now.present ≡ false }
    ensures { IsTrue result ↔ IsProductOut sets.now.present left right of }
{
    let corners = corners(sets, left, right);
    all_above(&corners, sets, of) || all_below(&corners, sets, of)
}

/// The four products of the bounds of two terms.
fn corners(sets: &Sets, left: Term, right: Term) -> [i128; 4]
    requires left { IsTerm (length sets.now.present) left }
    requires right { IsTerm (length sets.now.present) right }
    requires nonempty { is_some_empty sets.now.present ≡ false }
    ensures { result ≡ corners sets.now.present left right }
{
    let low = least_value(sets, left);
    let high = greatest_value(sets, left);
    let other_low = least_value(sets, right);
    let other_high = greatest_value(sets, right);
    [
        product(&low, &other_low),
        product(&low, &other_high),
        product(&high, &other_low),
        product(&high, &other_high),
    ]
}

fn product(left: &i64, right: &i64) -> i128
    requires left { IsInLimits left.now }
    requires right { IsInLimits right.now }
    ensures { result ≡ left.now *ℤ right.now }
{
    *left as i128 * *right as i128
}

/// Whether all exceed the greatest value of the term.
fn all_above(products: &[i128; 4], sets: &Sets, term: Term) -> bool
    requires term { IsTerm (length sets.now.present) term }
    requires nonempty { is_some_empty sets.now.present ≡ false }
    ensures { IsTrue result ↔ All (λ product. greatest_value sets.now.present term <ℤ product) products.now }
{
    let bound = greatest_value(sets, term) as i128;
    products.iter().all(|product| bound < *product)
}

/// Whether all are below the least value of the term.
fn all_below(products: &[i128; 4], sets: &Sets, term: Term) -> bool
    requires term { IsTerm (length sets.now.present) term }
    requires nonempty { is_some_empty sets.now.present ≡ false }
    ensures { IsTrue result ↔ All (λ product. product <ℤ least_value sets.now.present term) products.now }
{
    let bound = least_value(sets, term) as i128;
    products.iter().all(|product| *product < bound)
}
