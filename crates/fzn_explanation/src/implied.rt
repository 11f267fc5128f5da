// How literals of one variable compare, over its declared set.
ghost use Rattle.std.specs.Prelude.{◌≡◌, ◌↔◌, ◌<ℤ◌, ℤ, true, IsTrue};
ghost use Rattle.fzn_domain.specs.IntSet.{contains};
ghost use Rattle.fzn_domain.specs.Literal.{is_true_at, negated};
ghost use Rattle.fzn_explanation.specs.Implied.{Implies, AreAlike, IsTrueOnSet};

use fzn_domain::{Domain, Lit, Op};

/// The literal that is true where this one is false. Where that is beyond 64 bits, its number stays at the end.
pub fn opposite(lit: Lit) -> Lit
    ensures { i64.MIN <ℤ lit.value → lit.value <ℤ i64.MAX → result ≡ negated lit }
{
    match lit.op {
        Op::AtMost => with(lit, Op::AtLeast, lit.value.saturating_add(1)),
        Op::AtLeast => with(lit, Op::AtMost, lit.value.saturating_sub(1)),
        Op::Equal => with(lit, Op::NotEqual, lit.value),
        Op::NotEqual => with(lit, Op::Equal, lit.value),
    }
}

/// The literal that is true at the same values of the declared set: a bound where it compares with an end, and bounds that are members.
#[inline(always)]
pub fn canonical(lit: Lit, declared: &Domain) -> Lit
    ensures same { AreAlike declared.now result lit }
    ensures variable { result.var ≡ lit.var }
{
    let value = lit.value;
    match lit.op {
        Op::AtMost | Op::AtLeast if declared.contains(value) => lit,
        _ if declared.is_empty() => lit,
        Op::AtMost => at_most_member(lit, value.saturating_add(1), declared),
        Op::AtLeast => at_least_member(lit, value.saturating_sub(1), declared),
        Op::Equal if value <= declared.min() => with(lit, Op::AtMost, value),
        Op::Equal if declared.max() <= value => with(lit, Op::AtLeast, value),
        Op::NotEqual if value <= declared.min() => at_least_member(lit, value, declared),
        Op::NotEqual if declared.max() <= value => at_most_member(lit, value, declared),
        _ => lit,
    }
}

/// At most the greatest member below the number; the literal itself where there is none.
fn at_most_member(lit: Lit, number: i64, declared: &Domain) -> Lit
    requires { (value : ℤ) → contains declared.now value ≡ true → (is_true_at lit value ≡ true) ↔ (value <ℤ number) }
    ensures same { AreAlike declared.now result lit }
    ensures variable { result.var ≡ lit.var }
{
    match declared.below(number) {
        Some(member) => with(lit, Op::AtMost, member),
        None => lit,
    }
}

/// At least the least member above the number; the literal itself where there is none.
fn at_least_member(lit: Lit, number: i64, declared: &Domain) -> Lit
    requires { (value : ℤ) → contains declared.now value ≡ true → (is_true_at lit value ≡ true) ↔ (number <ℤ value) }
    ensures same { AreAlike declared.now result lit }
    ensures variable { result.var ≡ lit.var }
{
    match declared.above(number) {
        Some(member) => with(lit, Op::AtLeast, member),
        None => lit,
    }
}

fn with(lit: Lit, op: Op, value: i64) -> Lit
    ensures { result ≡ record lit { op = op; value = value } }
{
    Lit {
        var: lit.var,
        op,
        value,
    }
}

/// Whether the second literal is true where the first one is, both of one variable; of canonical ones it answers exactly that.
pub fn implies(first: Lit, second: Lit) -> bool
    ensures { IsTrue result → Implies first second }
{
    match (first.op, second.op) {
        (Op::Equal, _) => second.is_true_at(first.value),
        (Op::AtMost, Op::AtMost) => first.value <= second.value,
        (Op::AtMost, Op::NotEqual) => first.value < second.value,
        (Op::AtLeast, Op::AtLeast) => second.value <= first.value,
        (Op::AtLeast, Op::NotEqual) => second.value < first.value,
        (Op::NotEqual, Op::NotEqual) => first.value == second.value,
        _ => false,
    }
}

/// Whether the literal is true at each value of the set.
pub fn is_true_on(domain: &Domain, lit: Lit) -> bool
    ensures { IsTrue result → IsTrueOnSet domain.now lit }
{
    if domain.is_empty() {
        return true;
    }
    match lit.op {
        Op::AtLeast => lit.value <= domain.min(),
        Op::AtMost => domain.max() <= lit.value,
        Op::Equal => lit.value == domain.min() && lit.value == domain.max(),
        Op::NotEqual => {
            lit.value < domain.min() || domain.max() < lit.value || !domain.contains(lit.value)
        }
    }
}
