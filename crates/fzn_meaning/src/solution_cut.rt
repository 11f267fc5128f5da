// The clause that a solution adds.
ghost use Rattle.std.specs.Prelude.{◌≡◌, [], ◌∷◌, IfOk, length};
ghost use Rattle.std.specs.List.{All};
ghost use Rattle.fzn_domain.specs.Limits.{IsInLimits};
ghost use Rattle.fzn_domain.specs.Narrow.{IsVariable};
ghost use Rattle.fzn_meaning.specs.declared.model.Goal.TheVariants.{Satisfy};
ghost use Rattle.fzn_meaning.specs.Solutions.{cut_of, cut_for, declared_sets};
ghost use Rattle.fzn_meaning.specs.WellFormed.{IsGoal};

use crate::model::{Goal, Model};
use fzn_domain::{Clause, Lit, Memory, Op, VarId};
use std::alloc::Global;

/// The cut of a solution: in an optimisation "better than this one", in satisfaction "some output variable has another value", so the
/// empty clause where there is no output variable. The values are one for each variable, in order. It answers `Err` where memory runs out.
pub fn cut(alloc: Global, model: &Model, values: &[i64]) -> Result<Clause, Memory>
    requires goal { IsGoal (length model.now.vars) model.now.goal }
    requires outputs { All (IsVariable (length model.now.vars)) model.now.outputs }
    requires length { length values.now ≡ length (declared_sets model.now.vars) }
    requires limits { All IsInLimits values.now }
    ensures { IfOk result (λ clause. clause ≡ cut_of model.now values.now) }
{
    match model.goal {
        Goal::Satisfy => differs(alloc, model.outputs.as_slice(), values),
        Goal::Minimize(var) => one_literal(
            alloc,
            Lit {
                var,
                op: Op::AtMost,
                value: values[var.0 - 1] - 1,
            },
        ),
        Goal::Maximize(var) => one_literal(
            alloc,
            Lit {
                var,
                op: Op::AtLeast,
                value: values[var.0 - 1] + 1,
            },
        ),
    }
}

fn one_literal(alloc: Global, lit: Lit) -> Result<Clause, Memory>
    ensures { IfOk result (λ clause. clause ≡ lit ∷ []) }
{
    let mut clause = Clause::new(alloc);
    clause.push(lit)?;
    Ok(clause)
}

fn differs(alloc: Global, outputs: &[VarId], values: &[i64]) -> Result<Clause, Memory>
    requires { All (IsVariable (length values.now)) outputs.now }
    ensures { IfOk result (λ clause. clause ≡ cut_for Satisfy outputs.now values.now) }
{
    let mut clause = Clause::with_capacity(alloc, outputs.len())?;
    for var in outputs {
        clause.push(Lit {
            var: *var,
            op: Op::NotEqual,
            value: values[var.0 - 1],
        })?;
    }
    Ok(clause)
}
