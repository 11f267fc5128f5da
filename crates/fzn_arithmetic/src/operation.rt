// Which operations are looked at how.
ghost use Rattle.std.specs.Prelude.{◌≡◌, length, IfSome};
ghost use Rattle.fzn_domain.specs.Narrow.{NoneEmpty};
ghost use Rattle.fzn_values.specs.declared.term.Term.{Term};
ghost use Rattle.fzn_meaning.specs.declared.constraint.Constraint.TheVariants as constraint;
ghost use Rattle.fzn_values.specs.Term.{IsTerm};
ghost use Rattle.fzn_propagator.specs.Inference.{AreFoundOf};
ghost use Rattle.fzn_arithmetic.specs.Excluded.{shaped};
ghost use Rattle.fzn_arithmetic.specs.Passes.{AreFoundOfShape};

use crate::excluded::Shape;
use crate::pass::Pass;
use fzn_domain::Memory;
use fzn_meaning::Operation;
use fzn_propagator::Findings;
use fzn_trail::Trail;
use fzn_values::Term;
use std::alloc::Global;

/// Appends to `found` clauses that are false or force a literal each, where intervals of the places show some. Of sums there are none.
pub fn infer_operation(
    alloc: Global,
    trail: &Trail,
    number: u64,
    operation: Operation,
    left: Term,
    right: Term,
    of: Term,
    found: &mut Findings,
) -> Result<(), Memory>
    requires left { IsTerm (length trail.now.declared) left }
    requires right { IsTerm (length trail.now.declared) right }
    requires of { IsTerm (length trail.now.declared) of }
    requires filled { NoneEmpty trail.now.sets }
    requires before { AreFoundOf number (constraint.Arithmetic operation left right of) trail.now found.old }
    ensures { AreFoundOf number (constraint.Arithmetic operation left right of) trail.now found.new }
{
    let Some(shape) = shape_of(operation) else {
        return Ok(());
    };
    let pass = Pass {
        alloc,
        number,
        trail,
        shape,
        left,
        right,
        of,
    };
    pass.find(found)
}

/// What the result of the operation is to its places. Nothing of a sum.
fn shape_of(operation: Operation) -> Option<Shape>
    ensures { IfSome result (λ shape. (left right of : Term) → shaped shape left right of ≡ constraint.Arithmetic operation left right of) }
{
    match operation {
        Operation::Times => Some(Shape::Product),
        Operation::Quotient => Some(Shape::Quotient),
        Operation::Remainder => Some(Shape::Remainder),
        Operation::Plus => None,
    }
}

impl<'a> Pass<'a> {
    /// Finds what the ends or the values of the places show.
    pub(crate) fn find(&self, found: &mut Findings) -> Result<(), Memory>
        requires { AreFoundOfShape self.now found.old }
        ensures { AreFoundOfShape self.now found.new }
    {
        match self.shape {
            Shape::Product => self.find_ends(self.intervals(), found),
            Shape::Quotient | Shape::Remainder => self.find_quotients(found),
            Shape::Absolute => self.find_absolutes(found),
        }
    }
}
