// What the ends and small sets of a constraint's terms show.
ghost use Rattle.std.specs.Prelude.{length};
ghost use Rattle.fzn_domain.specs.Narrow.{NoneEmpty};
ghost use Rattle.fzn_meaning.specs.declared.constraint.Constraint.TheVariants as constraint;
ghost use Rattle.fzn_values.specs.Term.{IsTerm};
ghost use Rattle.fzn_meaning.specs.Meaning.{IsWellFormedConstraint};
ghost use Rattle.fzn_propagator.specs.Inference.{AreFoundOf};
ghost use Rattle.fzn_fixed.specs.Parts.{ArePartsReady};

use crate::member::Pass;
use fzn_arithmetic::{infer_absolute_value, infer_operation};
use fzn_domain::Memory;
use fzn_equality::{infer_element, infer_extremum};
use fzn_fixed::{Parts, infer_last};
use fzn_meaning::Constraint;
use fzn_propagator::Findings;
use fzn_rules::Rule;
use fzn_trail::Trail;
use std::alloc::Global;

/// Appends conflicts and unit inferences to `found`. Finding none guarantees nothing.
pub fn narrow(
    alloc: Global,
    trail: &Trail,
    number: u64,
    parts: &Parts,
    found: &mut Findings,
) -> Result<(), Memory>
    requires ready { ArePartsReady (length trail.now.declared) parts.now }
    requires filled { NoneEmpty trail.now.sets }
    requires before { AreFoundOf number parts.now.constraint trail.now found.old }
    ensures { AreFoundOf number parts.now.constraint trail.now found.new }
{
    match &parts.constraint {
        Constraint::BoolXor { .. } | Constraint::ArrayBoolXor { .. } => {
            let clause = infer_last(alloc, trail, parts)?;
            found.hand_over(number, Rule::Fixed, clause)
        }
        _ => narrow_rows(alloc, trail, number, &parts.constraint, found),
    }
}

/// The same by ends and small sets.
#[tactic(auto, unfolding(fzn_meaning::specs::Meaning::IsWellFormedConstraint))]
fn narrow_rows(
    alloc: Global,
    trail: &Trail,
    number: u64,
    constraint: &Constraint,
    found: &mut Findings,
) -> Result<(), Memory>
    requires formed { IsWellFormedConstraint (length trail.now.declared) constraint.now }
    requires filled { NoneEmpty trail.now.sets }
    requires before { AreFoundOf number constraint.now trail.now found.old }
    ensures { AreFoundOf number constraint.now trail.now found.new }
{
    match constraint {
        Constraint::Arithmetic {
            operation,
            left,
            right,
            result,
        } => infer_operation(
            alloc, trail, number, *operation, *left, *right, *result, found,
        ),
        Constraint::Element {
            index,
            entries,
            value,
        } => {
            let entries = entries.as_slice();
            infer_element(alloc, trail, number, *index, entries, *value, found)
        }
        Constraint::Extremum {
            extreme,
            entries,
            result,
        } => {
            let entries = entries.as_slice();
            infer_extremum(alloc, trail, number, *extreme, entries, *result, found)
        }
        Constraint::IntAbs { of, result } => {
            infer_absolute_value(alloc, trail, number, *of, *result, found)
        }
        Constraint::SetIn { term, set, switch } => {
            let pass = Pass {
                alloc,
                number,
                trail,
                term: *term,
                set,
                switch: *switch,
            };
            pass.find(found)
        }
        _ => Ok(()),
    }
}
