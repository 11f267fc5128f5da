// Sums, products, quotients, remainders and absolute values.
ghost use Rattle.std.specs.Prelude.{◌≡◌, ◌≢◌, ◌↔◌, pos, ◌+ℤ◌, ◌*ℤ◌, int_div, int_rem, IsTrue};
ghost use Rattle.fzn_meaning.specs.Arithmetic.{IsArithmetic, IsIntAbs};

/// What makes the result of two terms (MiniZinc Handbook, FlatZinc builtins: `int_plus`, `int_times`, `int_div`, `int_mod`). A quotient is
/// rounded toward zero.
#[derive(Clone, Copy, Debug, PartialEq, Eq)]
pub enum Operation {
    /// Their sum.
    Plus,
    /// Their product.
    Times,
    /// The first divided by the second, which is not 0.
    Quotient,
    /// What the first leaves when it is divided by the second: it has the sign of the first.
    Remainder,
}

pub(crate) fn is_arithmetic(operation: Operation, left: i64, right: i64, outcome: i64) -> bool
    ensures { IsTrue result ↔ IsArithmetic operation left right outcome }
{
    let outcome = outcome as i128;
    match operation {
        Operation::Plus => plus(left, right) == outcome,
        Operation::Times => times(left, right) == outcome,
        Operation::Quotient => right != 0 && quotient(left, right) == outcome,
        Operation::Remainder => right != 0 && remainder(left, right) == outcome,
    }
}

fn plus(left: i64, right: i64) -> i128
    ensures { result ≡ left +ℤ right }
{
    left as i128 + right as i128
}

fn times(left: i64, right: i64) -> i128
    ensures { result ≡ left *ℤ right }
{
    left as i128 * right as i128
}

fn quotient(left: i64, right: i64) -> i128
    requires { right ≢ pos 0 }
    ensures { result ≡ int_div left right }
{
    left as i128 / right as i128
}

fn remainder(left: i64, right: i64) -> i128
    requires { right ≢ pos 0 }
    ensures { result ≡ int_rem left right }
{
    left as i128 % right as i128
}

pub(crate) fn is_int_abs(value: i64, absolute: i64) -> bool
    ensures { IsTrue result ↔ IsIntAbs value absolute }
{
    0 <= absolute && value.unsigned_abs() == absolute as u64
}
