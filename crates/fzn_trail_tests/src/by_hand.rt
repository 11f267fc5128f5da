// What tests by hand take: literals, decisions, and numbers in no order.
ghost use Rattle.std.specs.Prelude.{◌≡◌, ◌≤◌, IsTrue, length};
ghost use Rattle.fzn_domain.specs.Narrow.{NoneEmpty};

use fzn_domain::{Lit, Memory, Op, VarId};
use fzn_trail::{Reason, Trail};

/// Whether each set has a value.
pub fn is_filled(trail: &Trail, count: usize) -> bool
    requires { count ≡ length trail.now.declared }
    ensures { IsTrue result → NoneEmpty trail.now.sets }
{
    let _entries = trail.len(); // There are as many sets as are declared.
    for k in 0..count {
        if trail.domain(VarId(k + 1)).is_empty() {
            return false;
        }
    }
    true
}

/// A literal.
pub fn lit(var: usize, op: Op, value: i64) -> Lit
    ensures { result.var.0 ≡ var }
{
    Lit {
        var: VarId(var),
        op,
        value,
    }
}

/// Keeps the values of the variable that compare so with this one.
pub fn keep(trail: &mut Trail, var: VarId, op: Op, value: i64) -> Result<(), Memory>
    requires { (1 ≤ var.0) × (var.0 ≤ length trail.old.declared) }
    ensures { trail.new.declared ≡ trail.old.declared }
{
    trail.assert(Lit { var, op, value }, Reason::Decision)?;
    Ok(())
}

/// The next of numbers in no order.
pub fn next_random(seed: u64) -> u64 {
    seed.wrapping_mul(6_364_136_223_846_793_005)
        .wrapping_add(1_442_695_040_888_963_407)
}
