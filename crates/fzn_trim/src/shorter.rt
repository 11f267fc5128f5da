// The head of a certificate without the lines that nothing needs, and the test of it with the steps of a plan.
ghost use Rattle.std.specs.Prelude.{◌+◌, ◌≤◌, Ok, length, string_bytes, IfOk, IfSome, OnOk};
ghost use Rattle.fzn_meaning.specs.declared.model.Model.{Model};
ghost use Rattle.fzn_meaning.specs.Meaning.{longest};
ghost use Rattle.fzn_meaning.specs.WellFormed.{IsWellFormed};
ghost use Rattle.fzn_reading.specs.Reads.{Reads};
ghost use Rattle.fzn_cert.specs.declared.step.Version.TheVariants.{Two};
ghost use Rattle.fzn_cert.specs.Verdict.{AllHaveLines};
ghost use Rattle.fzn_checker.specs.Held.{Stands};
ghost use Rattle.fzn_checker.specs.Opened.{IsHeadOf, IsInFront};
ghost use Rattle.fzn_core.specs.Kept.{kept_steps};
ghost use Rattle.fzn_core.specs.Planned.{planned};
ghost use Rattle.fzn_trim.specs.Behind.{kept_front, IsTrimBehind};

use fzn_cert::{Version, header_of};
use fzn_checker::Held;
use fzn_cited::Multiple;
use fzn_core::{
    Kept, Plan, is_marked, is_trim, needed_marks, new_constraint, planned_lines, push_number,
    tested_steps,
};
use fzn_derive::Derivation;
use fzn_domain::Memory;
use fzn_head::open_with;
use fzn_lexer::Halt;
use fzn_list::Items;
use fzn_meaning::Model;
use fzn_reading::one_model;
use fzn_row::RowItem;
use fzn_sources::stated_in;
use std::alloc::Global;

/// The steps of a trimmed certificate, and what stands in front of them: those of a plan behind a head without the lines that nothing needs,
/// where they stand the test, and else steps behind the old head. The bytes are those of the file, and the model is the file's with the
/// constraints that the held derivations give. It answers `Err` where memory runs out.
pub fn trimmed_certificate(
    alloc: Global,
    bytes: &[u8],
    model: &Model,
    held: Held,
) -> Result<Kept, Memory>
    requires model { IsWellFormed model.now }
    requires derived { length held.derivations.items ≤ length model.now.constraints }
    requires stands { Stands model.now held }
    requires lines { AllHaveLines Two 0 held.steps }
    ensures { IfOk result (λ kept. (own : Model) → IsWellFormed own → Reads bytes.now (Ok own) → IsHeadOf own model.now held.derivations.items
        → IsTrimBehind own (length model.now.constraints) held (kept_steps kept) (kept_front model.now kept)) }
{
    let mut plan = planned_lines(alloc, model, &held)?;
    if let Some(front) = shorter_front(alloc, bytes, model, &held, &mut plan)? {
        return Ok(Kept {
            derivations: held.derivations,
            held: held.steps,
            front: Some(front),
            plan: Some(plan),
        });
    }
    plan.constraints = Vec::new(alloc);
    let kept = tested_steps(alloc, model, held, plan)?;
    Ok(kept)
}

/// What stands in front of the steps of the plan where the head is without the lines that nothing needs, and none where it has no such line
/// or where the test refuses the steps behind it. The plan has the new numbers of the constraints then. The bytes are those of the file, and
/// the model is the file's with the constraints that the held derivations give. It answers `Err` where memory runs out.
fn shorter_front(
    alloc: Global,
    bytes: &[u8],
    model: &Model,
    held: &Held,
    plan: &mut Plan,
) -> Result<Option<String>, Memory>
    requires few { length model.now.constraints ≤ longest }
    requires derived { length held.now.derivations.items ≤ length model.now.constraints }
    ensures { IfOk result (λ found. IfSome found (λ front. (own : Model) → Reads bytes.now (Ok own)
        → IsTrimBehind own (length model.now.constraints) held.now (planned plan.new held.now.steps) (string_bytes front))) }
{
    let derivations = held.derivations.as_slice();
    if derivations.is_empty() {
        return Ok(None);
    }
    let own = model.constraints.len() - derivations.len();
    let lines = lines_left(alloc, own, held, plan)?;
    if lines.derivations.len() == derivations.len() {
        return Ok(None);
    }
    plan.constraints = lines.numbers;
    tested_front(
        alloc,
        bytes,
        model.constraints.len(),
        held,
        plan,
        lines.derivations.as_slice(),
    )
}

/// What stands in front of the steps of the plan where the head derives constraints so, if they stand the test behind it, and the model of
/// the file with these constraints has at most so many.
fn tested_front(
    alloc: Global,
    bytes: &[u8],
    most: usize,
    held: &Held,
    plan: &Plan,
    derivations: &[Derivation],
) -> Result<Option<String>, Memory>
    ensures { IfOk result (λ found. IfSome found (λ front. (own : Model) → Reads bytes.now (Ok own)
        → IsTrimBehind own most held.now (planned plan.now held.now.steps) (string_bytes front))) }
{
    let mut model = match stated_in(alloc, bytes) {
        Ok(file) => file.model,
        Err(Halt::Memory) => return Err(Memory),
        // Not reached: the bytes have stated a model before.
        Err(Halt::Fault(_)) => return Ok(None),
    };
    one_model();
    let front = front_with(alloc, &mut model, derivations)?;
    if model.constraints.len() > most {
        return Ok(None);
    }
    if is_trim(alloc, &model, held, plan)? {
        Ok(Some(front))
    } else {
        Ok(None)
    }
}

/// Puts the constraints that these derivations give behind the model's own, and returns what stands in front of steps from them: the lines of
/// version 3, or of version 2 where none is given. It answers `Err` where memory runs out.
fn front_with(
    alloc: Global,
    model: &mut Model,
    derivations: &[Derivation],
) -> Result<String, Memory>
    requires { IsWellFormed model.old }
    ensures front { IfOk result (λ front. IsInFront model.old model.new Two (string_bytes front)) }
    ensures formed { OnOk result (IsWellFormed model.new) }
{
    let variables = model.vars.len() as u64;
    let constraints = model.constraints.len() as u64;
    let opening = open_with(alloc, model, derivations)?;
    match opening {
        Some(lines) => Ok(lines),
        None => {
            let lines = header_of(alloc, Version::Two, variables, constraints)?;
            Ok(lines)
        }
    }
}

/// The lines of a head that are left.
#[derive(Drop)]
struct Lines {
    /// How they derive constraints.
    derivations: Vec<Derivation>,
    /// The new number of each constraint, of the file's and of those that the old head derives, and 0 where it has none.
    numbers: Vec<u64>,
}

/// The lines that the steps of the plan need, and those that these need. The first of the held derivations gives the constraint behind
/// number `own`.
fn lines_left(alloc: Global, own: usize, held: &Held, plan: &Plan) -> Result<Lines, Memory>
    requires { own + length held.now.derivations.items ≤ longest }
{
    let derivations = held.derivations.as_slice();
    let cited = cited_constraints(alloc, held, plan)?;
    let marks = needed_marks(alloc, own, derivations, cited.as_slice())?;
    let mut numbers = Vec::new(alloc);
    for before in 0..own {
        numbers.push(before as u64 + 1)?;
    }
    let mut left = Vec::new(alloc);
    let mut last = own as u64;
    for before in 0..derivations.len() {
        if is_marked(&marks, own + before + 1) {
            left.push(derivation_with(alloc, &derivations[before], numbers.as_slice())?)?;
            last = last.saturating_add(1);
            numbers.push(last)?;
        } else {
            numbers.push(0)?;
        }
    }
    Ok(Lines {
        derivations: left,
        numbers,
    })
}

/// The numbers of the constraints that the steps of the plan infer from.
fn cited_constraints(alloc: Global, held: &Held, plan: &Plan) -> Result<Vec<u64>, Memory> {
    let mut cited = Vec::new(alloc);
    for place in 0..plan.lines.len() {
        let step = plan.step(alloc, &held.steps, plan.lines[place])?;
        push_number(&step, &mut cited)?;
    }
    Ok(cited)
}

/// The derivation with the new numbers of the constraints that it cites.
fn derivation_with(
    alloc: Global,
    derivation: &Derivation,
    numbers: &[u64],
) -> Result<Derivation, Memory> {
    match derivation {
        Derivation::Sum(multiples) => {
            let multiples = multiples_with(alloc, multiples.as_slice(), numbers)?;
            Ok(Derivation::Sum(multiples))
        }
        Derivation::Parity(constraints) => {
            let constraints = constraints_with(alloc, constraints.as_slice(), numbers)?;
            Ok(Derivation::Parity(constraints))
        }
        Derivation::AllDifferent {
            variables,
            constraints,
        } => {
            let variables = Items::from_slice(alloc, variables.as_slice())?;
            let constraints = constraints_with(alloc, constraints.as_slice(), numbers)?;
            Ok(Derivation::AllDifferent {
                variables,
                constraints,
            })
        }
        Derivation::Row(items) => {
            let mut new = Items::new(alloc);
            for item in items.as_slice() {
                new.push(item_with(alloc, item, numbers)?)?;
            }
            Ok(Derivation::Row(new))
        }
    }
}

fn item_with(alloc: Global, item: &RowItem, numbers: &[u64]) -> Result<RowItem, Memory> {
    match item {
        RowItem::Multiples(multiples) => {
            let multiples = multiples_with(alloc, multiples.as_slice(), numbers)?;
            Ok(RowItem::Multiples(multiples))
        }
        RowItem::Prices {
            constraint,
            low,
            prices,
        } => {
            let prices = Items::from_slice(alloc, prices.as_slice())?;
            Ok(RowItem::Prices {
                constraint: new_constraint(numbers, *constraint),
                low: *low,
                prices,
            })
        }
        RowItem::Move {
            constraint,
            variable,
        } => Ok(RowItem::Move {
            constraint: new_constraint(numbers, *constraint),
            variable: *variable,
        }),
        RowItem::Columns {
            constraint,
            column,
            low,
            prices,
        } => {
            let prices = Items::from_slice(alloc, prices.as_slice())?;
            Ok(RowItem::Columns {
                constraint: new_constraint(numbers, *constraint),
                column: *column,
                low: *low,
                prices,
            })
        }
        RowItem::Rows {
            constraint,
            variable,
        } => Ok(RowItem::Rows {
            constraint: new_constraint(numbers, *constraint),
            variable: *variable,
        }),
    }
}

fn multiples_with(
    alloc: Global,
    multiples: &[Multiple],
    numbers: &[u64],
) -> Result<Items<Multiple>, Memory> {
    let mut new = Items::new(alloc);
    for multiple in multiples {
        new.push(Multiple {
            multiplier: multiple.multiplier,
            constraint: new_constraint(numbers, multiple.constraint),
        })?;
    }
    Ok(new)
}

fn constraints_with(
    alloc: Global,
    constraints: &[u64],
    numbers: &[u64],
) -> Result<Items<u64>, Memory> {
    let mut new = Items::new(alloc);
    for constraint in constraints {
        new.push(new_constraint(numbers, *constraint))?;
    }
    Ok(new)
}
