// The constraint that each name states of its arguments.
ghost use Rattle.std.specs.Prelude.{◌≡◌, ◌∷◌, [], IfOk};
ghost use Rattle.std.specs.List.{All};
ghost use Rattle.fzn_meaning.specs.declared.constraint.Constraint.TheVariants.{Compare, Linear, BoolLinEq, Arithmetic, Extremum, Element, SetIn, Gated, Table, Cumulative};
ghost use Rattle.fzn_names.specs.Known.{known};
ghost use Rattle.fzn_typing.specs.Arguments.{argument_term, terms_at, set_at, number_given, numbers_at};
ghost use Rattle.fzn_typing.specs.Constraints.{sum, constraint_for};
ghost use Rattle.fzn_typing.specs.Limits.{IsArgWithin};

use crate::given::{number_at, numbers_at, set_at, sum_of, term_at, terms_at};
use fzn_list::{Items, Shared};
use fzn_meaning::{Comparison, Constraint, Extreme, Gate, Operation, Relation};
use fzn_names::Names;
use fzn_registry::Name;
use fzn_tree::Arg;
use fzn_values::Term;
use std::alloc::{AllocError, Global};

fn compare(names: &Names, args: &[Arg], relation: Relation, switch: Option<Term>) -> Constraint
    ensures { result ≡ Compare relation (argument_term (known names.now) args.now 0) (argument_term (known names.now) args.now 1) switch }
{
    Constraint::Compare {
        relation,
        left: term_at(names, args, 0),
        right: term_at(names, args, 1),
        switch,
    }
}

fn linear(
    alloc: Global,
    names: &Names,
    args: &[Arg],
    comparison: Comparison,
    switch: Option<Term>,
) -> Result<Constraint, AllocError>
    ensures { IfOk result (λ found. found ≡ Linear (sum (known names.now) args.now) comparison (number_given (known names.now) args.now 2) switch) }
{
    Ok(Constraint::Linear {
        sum: sum_of(alloc, names, args)?,
        comparison,
        bound: number_at(names, args, 2),
        switch,
    })
}

fn compute(names: &Names, args: &[Arg], operation: Operation) -> Constraint
    ensures { result ≡ Arithmetic operation (argument_term (known names.now) args.now 0) (argument_term (known names.now) args.now 1) (argument_term (known names.now) args.now 2) }
{
    Constraint::Arithmetic {
        operation,
        left: term_at(names, args, 0),
        right: term_at(names, args, 1),
        result: term_at(names, args, 2),
    }
}

/// The first two arguments as a list.
fn pair(alloc: Global, names: &Names, args: &[Arg]) -> Result<Shared<Term>, AllocError>
    ensures { IfOk result (λ found. found ≡ argument_term (known names.now) args.now 0 ∷ argument_term (known names.now) args.now 1 ∷ []) }
{
    let mut terms = Items::new(alloc);
    terms.push(term_at(names, args, 0))?;
    terms.push(term_at(names, args, 1))?;
    Shared::new(alloc, terms)
}

fn extremum_of_two(
    alloc: Global,
    names: &Names,
    args: &[Arg],
    extreme: Extreme,
) -> Result<Constraint, AllocError>
    ensures { IfOk result (λ found. found ≡ Extremum extreme (argument_term (known names.now) args.now 0 ∷ argument_term (known names.now) args.now 1 ∷ []) (argument_term (known names.now) args.now 2)) }
{
    Ok(Constraint::Extremum {
        extreme,
        entries: pair(alloc, names, args)?,
        result: term_at(names, args, 2),
    })
}

fn extremum(
    alloc: Global,
    names: &Names,
    args: &[Arg],
    extreme: Extreme,
) -> Result<Constraint, AllocError>
    ensures { IfOk result (λ found. found ≡ Extremum extreme (terms_at (known names.now) args.now 1) (argument_term (known names.now) args.now 0)) }
{
    Ok(Constraint::Extremum {
        extreme,
        entries: terms_at(alloc, names, args, 1)?,
        result: term_at(names, args, 0),
    })
}

fn element(alloc: Global, names: &Names, args: &[Arg]) -> Result<Constraint, AllocError>
    ensures { IfOk result (λ found. found ≡ Element (argument_term (known names.now) args.now 0) (terms_at (known names.now) args.now 1) (argument_term (known names.now) args.now 2)) }
{
    Ok(Constraint::Element {
        index: term_at(names, args, 0),
        entries: terms_at(alloc, names, args, 1)?,
        value: term_at(names, args, 2),
    })
}

fn member(
    alloc: Global,
    names: &Names,
    args: &[Arg],
    switch: Option<Term>,
) -> Result<Constraint, AllocError>
    requires { All IsArgWithin args.now }
    ensures { IfOk result (λ found. found ≡ SetIn (argument_term (known names.now) args.now 0) (set_at (known names.now) args.now 1) switch) }
{
    Ok(Constraint::SetIn {
        term: term_at(names, args, 0),
        set: set_at(alloc, names, args, 1)?,
        switch,
    })
}

fn gate_of_two(
    alloc: Global,
    names: &Names,
    args: &[Arg],
    gate: Gate,
) -> Result<Constraint, AllocError>
    ensures { IfOk result (λ found. found ≡ Gated gate (argument_term (known names.now) args.now 0 ∷ argument_term (known names.now) args.now 1 ∷ []) (argument_term (known names.now) args.now 2)) }
{
    Ok(Constraint::Gated {
        gate,
        inputs: pair(alloc, names, args)?,
        result: term_at(names, args, 2),
    })
}

fn gate(alloc: Global, names: &Names, args: &[Arg], gate: Gate) -> Result<Constraint, AllocError>
    ensures { IfOk result (λ found. found ≡ Gated gate (terms_at (known names.now) args.now 0) (argument_term (known names.now) args.now 1)) }
{
    Ok(Constraint::Gated {
        gate,
        inputs: terms_at(alloc, names, args, 0)?,
        result: term_at(names, args, 1),
    })
}

fn cumulative(alloc: Global, names: &Names, args: &[Arg]) -> Result<Constraint, AllocError>
    ensures { IfOk result (λ found. found ≡ Cumulative (terms_at (known names.now) args.now 0) (terms_at (known names.now) args.now 1) (terms_at (known names.now) args.now 2) (argument_term (known names.now) args.now 3)) }
{
    Ok(Constraint::Cumulative {
        starts: terms_at(alloc, names, args, 0)?,
        durations: terms_at(alloc, names, args, 1)?,
        uses: terms_at(alloc, names, args, 2)?,
        capacity: term_at(names, args, 3),
    })
}

/// What the constraint with this name says of these arguments.
#[tactic(auto, unfolding(crate::specs::Constraints::constraint_for))]
pub fn constraint_for(
    alloc: Global,
    names: &Names,
    args: &[Arg],
    name: Name,
) -> Result<Constraint, AllocError>
    requires { All IsArgWithin args.now }
    ensures { IfOk result (λ found. found ≡ constraint_for (known names.now) args.now name) }
{
    let third = Some(term_at(names, args, 2));
    let fourth = Some(term_at(names, args, 3));
    match name {
        Name::IntEq | Name::BoolEq => Ok(compare(names, args, Relation::Equal, None)),
        Name::IntNe => Ok(compare(names, args, Relation::NotEqual, None)),
        Name::IntLe | Name::BoolLe => Ok(compare(names, args, Relation::AtMost, None)),
        Name::IntLt | Name::BoolLt => Ok(compare(names, args, Relation::Below, None)),
        Name::IntEqReif | Name::BoolEqReif => Ok(compare(names, args, Relation::Equal, third)),
        Name::IntNeReif => Ok(compare(names, args, Relation::NotEqual, third)),
        Name::IntLeReif | Name::BoolLeReif => Ok(compare(names, args, Relation::AtMost, third)),
        Name::IntLtReif | Name::BoolLtReif => Ok(compare(names, args, Relation::Below, third)),
        Name::IntLinEq => linear(alloc, names, args, Comparison::Equal, None),
        Name::IntLinLe | Name::BoolLinLe => linear(alloc, names, args, Comparison::AtMost, None),
        Name::IntLinNe => linear(alloc, names, args, Comparison::NotEqual, None),
        Name::IntLinEqReif => linear(alloc, names, args, Comparison::Equal, fourth),
        Name::IntLinLeReif => linear(alloc, names, args, Comparison::AtMost, fourth),
        Name::IntLinNeReif => linear(alloc, names, args, Comparison::NotEqual, fourth),
        Name::IntPlus => Ok(compute(names, args, Operation::Plus)),
        Name::IntTimes => Ok(compute(names, args, Operation::Times)),
        Name::IntDiv => Ok(compute(names, args, Operation::Quotient)),
        Name::IntMod => Ok(compute(names, args, Operation::Remainder)),
        Name::IntMin => extremum_of_two(alloc, names, args, Extreme::Least),
        Name::IntMax => extremum_of_two(alloc, names, args, Extreme::Greatest),
        Name::ArrayIntMinimum => extremum(alloc, names, args, Extreme::Least),
        Name::ArrayIntMaximum => extremum(alloc, names, args, Extreme::Greatest),
        Name::ArrayIntElement
        | Name::ArrayVarIntElement
        | Name::ArrayBoolElement
        | Name::ArrayVarBoolElement => element(alloc, names, args),
        Name::SetIn => member(alloc, names, args, None),
        Name::SetInReif => member(alloc, names, args, third),
        Name::BoolAnd => gate_of_two(alloc, names, args, Gate::And),
        Name::BoolOr => gate_of_two(alloc, names, args, Gate::Or),
        Name::ArrayBoolAnd => gate(alloc, names, args, Gate::And),
        Name::ArrayBoolOr => gate(alloc, names, args, Gate::Or),
        Name::FznCumulative => cumulative(alloc, names, args),
        Name::BoolNot => Ok(Constraint::BoolNot {
            left: term_at(names, args, 0),
            right: term_at(names, args, 1),
        }),
        Name::Bool2Int => Ok(Constraint::BoolToInt {
            boolean: term_at(names, args, 0),
            integer: term_at(names, args, 1),
        }),
        Name::IntAbs => Ok(Constraint::IntAbs {
            of: term_at(names, args, 0),
            result: term_at(names, args, 1),
        }),
        Name::BoolXor => Ok(Constraint::BoolXor {
            left: term_at(names, args, 0),
            right: term_at(names, args, 1),
            result: term_at(names, args, 2),
        }),
        Name::BoolLinEq => Ok(Constraint::BoolLinEq {
            sum: sum_of(alloc, names, args)?,
            total: term_at(names, args, 2),
        }),
        Name::ArrayBoolXor => Ok(Constraint::ArrayBoolXor {
            inputs: terms_at(alloc, names, args, 0)?,
        }),
        Name::BoolClause => Ok(Constraint::BoolClause {
            positive: terms_at(alloc, names, args, 0)?,
            negative: terms_at(alloc, names, args, 1)?,
        }),
        Name::FznAllDifferentInt => Ok(Constraint::AllDifferent {
            places: terms_at(alloc, names, args, 0)?,
        }),
        Name::FznTableInt => Ok(Constraint::Table {
            places: terms_at(alloc, names, args, 0)?,
            rows: numbers_at(alloc, names, args, 1)?,
        }),
        Name::FznCircuit => Ok(Constraint::Circuit {
            successors: terms_at(alloc, names, args, 0)?,
        }),
        Name::FznInverse => Ok(Constraint::Inverse {
            forward: terms_at(alloc, names, args, 0)?,
            backward: terms_at(alloc, names, args, 1)?,
        }),
    }
}
