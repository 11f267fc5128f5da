// What the image of a constraint asks of its result.
ghost use Rattle.std.specs.Prelude.{List, Some, length};
ghost use Rattle.fzn_domain.specs.IntSet.{IntSet};
ghost use Rattle.fzn_domain.specs.Narrow.{IsVariable};
ghost use Rattle.fzn_values.specs.declared.term.Term.TheVariants.{Constant, Variable};
ghost use Rattle.fzn_fixed.specs.Demand.{IsDemand};

use crate::image::Image;
use crate::pass::Pass;
use fzn_domain::{Lit, Op, VarId};
use fzn_trail::Trail;
use fzn_values::Term;

/// What has to be so for the constraint to hold.
#[derive(Clone, Copy, Debug, PartialEq, Eq)]
pub enum Demand {
    /// Nothing: it holds.
    Nothing,
    /// What no declared value gives.
    Impossible,
    /// This literal, on the result, is true.
    Literal(Lit),
}

impl<'a> Pass<'a> {
    /// What the image asks of the result, whose declared set may hold more than the trail leaves.
    pub(crate) fn demand(&self, image: Image) -> Demand
        ensures { IsDemand self.now.trail.now.declared self.now.result image result }
    {
        let Some(term) = self.result else {
            return match image {
                Image::Holds => Demand::Nothing,
                _ => Demand::Impossible,
            };
        };
        match term {
            Term::Constant(k) => of_constant(k, image),
            Term::Variable(var) => of_variable(self.trail, var, image),
        }
    }
}

fn of_constant(k: i64, image: Image) -> Demand
    ensures { (declared : List IntSet) → IsDemand declared (Some (Constant k)) image result }
{
    match image {
        Image::Only(value) if k == value => Demand::Nothing,
        Image::AllBut(value) if k != value => Demand::Nothing,
        _ => Demand::Impossible,
    }
}

fn of_variable(trail: &Trail, var: VarId, image: Image) -> Demand
    requires { IsVariable (length trail.now.declared) var }
    ensures { IsDemand trail.now.declared (Some (Variable var)) image result }
{
    let declared = trail.declared(var);
    let _none = declared.is_empty(); // Its values lie within the limits.
    match image {
        Image::Only(value) if declared.contains(value) => Demand::Literal(Lit {
            var,
            op: Op::Equal,
            value,
        }),
        Image::AllBut(value) if declared.contains(value) => Demand::Literal(Lit {
            var,
            op: Op::NotEqual,
            value,
        }),
        Image::AllBut(_) => Demand::Nothing,
        _ => Demand::Impossible,
    }
}
