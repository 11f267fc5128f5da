// The numbers of the constraints that steps rest on.
ghost use Rattle.std.specs.Prelude.{◌≡◌, ◌≤◌, ◌↔◌, ◌++◌, ◌∷◌, [], ℕ, length, Contains, IfOk, OnOk};
ghost use Rattle.std.specs.List.{filter_map};
ghost use Rattle.std.specs.List.Sorted.{IsStrictlyIncreasing};
ghost use Rattle.fzn_meaning.specs.declared.model.Model.{Model};
ghost use Rattle.fzn_meaning.specs.WellFormed.{IsWellFormed};
ghost use Rattle.fzn_cert.specs.declared.step.Version.TheVariants.{Two};
ghost use Rattle.fzn_cert.specs.Verdict.{AllHaveLines};
ghost use Rattle.fzn_head.specs.Extended.{Extends};
ghost use Rattle.fzn_checker.specs.Held.{Stands};
ghost use Rattle.fzn_core.specs.Kept.{kept_steps};
ghost use Rattle.fzn_core.specs.Core.{IsCore, inferred_from};

use crate::kept::Kept;
use crate::needed::needed_numbers;
use crate::trial::trimmed_steps;
use fzn_cert::Step;
use fzn_checker::Held;
use fzn_domain::Memory;
use fzn_meaning::Model;
use std::alloc::Global;

/// The numbers of the constraints of a file that the held steps' answer was found to rest on, in rising order, and none where it is open. The
/// model has the constraints that the derivations give behind those of the file. It answers `Err` where memory runs out.
pub fn core_numbers(alloc: Global, model: &Model, held: Held) -> Result<Vec<u64>, Memory>
    requires model { IsWellFormed model.now }
    requires derived { length held.derivations.items ≤ length model.now.constraints }
    requires stands { Stands model.now held }
    requires lines { AllHaveLines Two 0 held.steps }
    ensures { IfOk result (λ numbers. (own : Model) → IsWellFormed own → Extends own held.derivations.items model.now
        → IsCore own model.now held.derivations.items held.solutions.items held.closed numbers.items) }
{
    if !held.closed {
        return Ok(Vec::new(alloc));
    }
    let own = model.constraints.len() - held.derivations.len();
    let kept = trimmed_steps(alloc, model, held)?;
    let cited = cited_by(alloc, &kept)?;
    let numbers = needed_numbers(alloc, own, kept.derivations.as_slice(), cited.as_slice())?;
    Ok(numbers)
}

/// The numbers of the constraints that the steps infer from, each once, in rising order.
fn cited_by(alloc: Global, kept: &Kept) -> Result<Vec<u64>, Memory>
    ensures cited { IfOk result (λ numbers. (number : ℕ) → Contains numbers.items number ↔ Contains (filter_map inferred_from (kept_steps kept.now)) number) }
    ensures rising { IfOk result (λ numbers. IsStrictlyIncreasing numbers.items) }
{
    let mut numbers = numbers_in(alloc, kept)?;
    numbers.sort_unstable();
    numbers.dedup();
    Ok(numbers)
}

/// The number of the constraint of each step that infers from one.
fn numbers_in(alloc: Global, kept: &Kept) -> Result<Vec<u64>, Memory>
    ensures { IfOk result (λ numbers. numbers.items ≡ filter_map inferred_from (kept_steps kept.now)) }
{
    let mut numbers = Vec::new(alloc);
    for place in 0..kept.len() {
        // Not reached: there is a step at the place.
        let Some(step) = kept.get(alloc, place)? else {
            return Ok(numbers);
        };
        push_number(&step, &mut numbers)?;
    }
    Ok(numbers)
}

/// Puts the number of the constraint from which the step infers behind these numbers, and nothing where it infers from none. It answers `Err`
/// where memory runs out.
pub fn push_number(step: &Step, numbers: &mut Vec<u64>) -> Result<(), Memory>
    ensures { OnOk result (numbers.new.items ≡ numbers.old.items ++ filter_map inferred_from (step.now ∷ [])) }
{
    match step {
        Step::Infer(inference) => {
            numbers.push(inference.constraint)?;
            Ok(())
        }
        _ => Ok(()),
    }
}
