// The copy of a constraint, with the places that its result follows from.
#![tactic(auto, unfolding(fzn_builtin_rules::specs::Form::form_of, fzn_builtin_rules::specs::Choices::inputs_of, fzn_builtin_rules::specs::Choices::result_of))]

ghost use Rattle.std.specs.Prelude.{◌≡◌, ◌∷◌, ◌++◌, [], IfOk, IfSome, IfNone, OnOk, None};
ghost use Rattle.fzn_meaning.specs.declared.constraint.Constraint.TheVariants as constraint;
ghost use Rattle.fzn_builtin_rules.specs.Choices.{inputs_of};
ghost use Rattle.fzn_builtin_rules.specs.Form.{form_of};
ghost use Rattle.fzn_fixed.specs.Parts.{ArePartsOf};

use fzn_domain::{Domain, Memory};
use fzn_list::{Items, Shared};
use fzn_meaning::{Constraint, Extreme, Operation};
use fzn_values::Term;
use std::alloc::Global;

/// A constraint that is no sum, with its input places and the place of its result.
#[derive(Drop)]
pub struct Parts {
    /// The constraint itself.
    pub constraint: Constraint,
    /// The terms whose values make the result, in order.
    pub inputs: Shared<Term>,
    /// The term of the result, where it has one.
    pub result: Option<Term>,
}

/// The parts of a constraint, and nothing where it is a sum or one of the five globals. It answers `Err` where memory runs out.
pub fn parts_of(alloc: Global, constraint: &Constraint) -> Result<Option<Parts>, Memory>
    ensures found { IfOk result (λ found. IfSome found (ArePartsOf constraint.now)) }
    ensures other { IfOk result (λ found. IfSome found (λ _. form_of constraint.now ≡ None)) }
    ensures none { IfOk result (λ found. IfNone found (form_of constraint.now ≡ None → inputs_of constraint.now ≡ None)) }
{
    let parts = match constraint {
        Constraint::Arithmetic {
            operation: Operation::Plus,
            ..
        } => return Ok(None),
        Constraint::Arithmetic {
            operation,
            left,
            right,
            result,
        } => arithmetic(alloc, *operation, *left, *right, *result)?,
        Constraint::IntAbs { of, result } => absolute(alloc, *of, *result)?,
        Constraint::Extremum {
            extreme,
            entries,
            result,
        } => extremum(*extreme, entries, *result)?,
        Constraint::Element {
            index,
            entries,
            value,
        } => element(alloc, *index, entries, *value)?,
        Constraint::SetIn { term, set, switch } => member(alloc, *term, set, *switch)?,
        Constraint::BoolXor {
            left,
            right,
            result,
        } => one_of_two(alloc, *left, *right, *result)?,
        Constraint::ArrayBoolXor { inputs } => odd(inputs)?,
        _ => return Ok(None),
    };
    Ok(Some(parts))
}

fn arithmetic(
    alloc: Global,
    operation: Operation,
    left: Term,
    right: Term,
    value: Term,
) -> Result<Parts, Memory>
    ensures { IfOk result (ArePartsOf (constraint.Arithmetic operation left right value)) }
{
    Ok(Parts {
        constraint: Constraint::Arithmetic {
            operation,
            left,
            right,
            result: value,
        },
        inputs: listed(alloc, &[left, right])?,
        result: Some(value),
    })
}

fn absolute(alloc: Global, of: Term, absolute: Term) -> Result<Parts, Memory>
    ensures { IfOk result (ArePartsOf (constraint.IntAbs of absolute)) }
{
    Ok(Parts {
        constraint: Constraint::IntAbs {
            of,
            result: absolute,
        },
        inputs: listed(alloc, &[of])?,
        result: Some(absolute),
    })
}

fn extremum(extreme: Extreme, entries: &Shared<Term>, value: Term) -> Result<Parts, Memory>
    ensures { IfOk result (ArePartsOf (constraint.Extremum extreme entries.now value)) }
{
    Ok(Parts {
        constraint: Constraint::Extremum {
            extreme,
            entries: entries.share()?,
            result: value,
        },
        inputs: entries.share()?,
        result: Some(value),
    })
}

fn element(alloc: Global, index: Term, entries: &Shared<Term>, value: Term) -> Result<Parts, Memory>
    ensures { IfOk result (ArePartsOf (constraint.Element index entries.now value)) }
{
    let mut inputs = Items::new(alloc);
    inputs.push(index)?;
    push_each(&mut inputs, entries.as_slice())?;
    Ok(Parts {
        constraint: Constraint::Element {
            index,
            entries: entries.share()?,
            value,
        },
        inputs: Shared::new(alloc, inputs)?,
        result: Some(value),
    })
}

fn member(alloc: Global, term: Term, set: &Domain, switch: Option<Term>) -> Result<Parts, Memory>
    ensures { IfOk result (ArePartsOf (constraint.SetIn term set.now switch)) }
{
    Ok(Parts {
        constraint: Constraint::SetIn {
            term,
            set: set.copy()?,
            switch,
        },
        inputs: listed(alloc, &[term])?,
        result: switch,
    })
}

fn one_of_two(alloc: Global, left: Term, right: Term, value: Term) -> Result<Parts, Memory>
    ensures { IfOk result (ArePartsOf (constraint.BoolXor left right value)) }
{
    Ok(Parts {
        constraint: Constraint::BoolXor {
            left,
            right,
            result: value,
        },
        inputs: listed(alloc, &[left, right])?,
        result: Some(value),
    })
}

fn odd(inputs: &Shared<Term>) -> Result<Parts, Memory>
    ensures { IfOk result (ArePartsOf (constraint.ArrayBoolXor inputs.now)) }
{
    Ok(Parts {
        constraint: Constraint::ArrayBoolXor {
            inputs: inputs.share()?,
        },
        inputs: inputs.share()?,
        result: None,
    })
}

fn listed(alloc: Global, terms: &[Term]) -> Result<Shared<Term>, Memory>
    ensures { IfOk result (λ all. all ≡ terms.now) }
{
    Shared::new(alloc, Items::from_slice(alloc, terms)?)
}

fn push_each(all: &mut Items<Term>, terms: &[Term]) -> Result<(), Memory>
    ensures { OnOk result (all.new ≡ all.old ++ terms.now) }
{
    for term in terms {
        all.push(*term)?;
    }
    Ok(())
}
