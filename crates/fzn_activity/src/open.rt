// What the trail says of a literal, and of a variable whose number comes from anywhere.
ghost use Rattle.std.specs.Prelude.{◌≡◌, ◌+◌, ◌<◌, length, IsTrue, IfSome};
ghost use Rattle.fzn_activity.specs.Splits.{Splits};

use fzn_domain::{Domain, GREATEST_VALUE, LEAST_VALUE, Lit, Op, VarId};
use fzn_trail::Trail;

/// Whether some values of the literal's variable make it true, and others false.
pub fn splits(trail: &Trail, vars: usize, lit: Lit) -> bool
    requires { vars ≡ length trail.now.declared }
    ensures { IsTrue result → Splits trail.now.sets lit }
{
    if lit.var.0 < 1 || vars < lit.var.0 {
        return false;
    }
    if lit.value < LEAST_VALUE || GREATEST_VALUE < lit.value {
        return false;
    }
    let domain = trail.domain(lit.var);
    !domain.is_false(lit) && !domain.is_false(lit.negated())
}

/// The values of the variable of this number, counted from 0, where it has more than one.
pub fn open_domain(trail: &Trail, vars: usize, number: usize) -> Option<&Domain>
    requires { vars ≡ length trail.now.declared }
    ensures { IfSome result (λ _. number < vars) }
{
    if number >= vars {
        return None;
    }
    let domain = trail.domain(VarId(number + 1));
    if domain.is_empty() || domain.min() == domain.max() {
        return None;
    }
    Some(domain)
}

/// The literal on the variable of this number, counted from 0; variables are counted from 1.
pub fn literal_on(number: usize, op: Op, value: i64) -> Lit
    requires { number + 1 < 18446744073709551616 }
    ensures { result.var.0 ≡ number + 1 }
{
    Lit {
        var: VarId(number + 1),
        op,
        value,
    }
}

/// The variable of this number, counted from 0, takes its least value, where it has more than one.
pub fn least_value(trail: &Trail, vars: usize, number: usize) -> Option<Lit>
    requires { vars ≡ length trail.now.declared }
    ensures { IfSome result (λ lit. lit.var.0 ≡ number + 1) }
{
    let domain = open_domain(trail, vars, number)?;
    if domain.is_empty() {
        return None;
    }
    Some(literal_on(number, Op::AtMost, domain.min()))
}

/// The variable of this number, counted from 0, takes its greatest value, where it has more than one.
pub fn greatest_value(trail: &Trail, vars: usize, number: usize) -> Option<Lit>
    requires { vars ≡ length trail.now.declared }
    ensures { IfSome result (λ lit. lit.var.0 ≡ number + 1) }
{
    let domain = open_domain(trail, vars, number)?;
    if domain.is_empty() {
        return None;
    }
    Some(literal_on(number, Op::AtLeast, domain.max()))
}

/// The value of the variable of this number, counted from 0, where it has just one.
pub fn value_of(trail: &Trail, number: usize) -> Option<i64> {
    let sets = trail.sets();
    if number >= sets.len() {
        return None;
    }
    let domain = sets.domain(VarId(number + 1));
    if domain.is_empty() || domain.min() != domain.max() {
        return None;
    }
    Some(domain.min())
}
