// Whether a solution passes the cuts of those before it.
ghost use Rattle.std.specs.Prelude.{◌≡◌, ◌∷◌, ◌++◌, [], ◌↔◌, true, false, IsTrue, IfOk, OnOk, List, ℤ};
ghost use Rattle.std.specs.List.{All, AllPairs};
ghost use Rattle.fzn_domain.specs.Narrow.{is_clause_true};
ghost use Rattle.fzn_meaning.specs.declared.model.Goal.TheVariants.{Satisfy};
ghost use Rattle.fzn_meaning.specs.Solutions.{IsSolution, PassesCuts, cut_of};
ghost use Rattle.fzn_meaning.specs.WellFormed.{IsWellFormed};
ghost use Rattle.fzn_checker.specs.Given.{given_by, is_given, AreGiven};

use crate::given::{Given, given_by};
use fzn_domain::Memory;
use fzn_list::Items;
use fzn_meaning::{Goal, Model, better};
use std::alloc::Global;

/// Whether the values make the cut of each of these solutions true. In an optimisation each of them is better than those before it, so
/// the last one decides; in a satisfaction, what they gave the output variables.
pub fn passes_cuts(
    alloc: Global,
    model: &Model,
    found: &[Items<i64>],
    given: &Given,
    values: &[i64],
) -> Result<bool, Memory>
    requires model { IsWellFormed model.now }
    requires found { All (IsSolution model.now) found.now }
    requires cuts { AllPairs (λ earlier later. is_clause_true later (cut_of model.now earlier) ≡ true) found.now }
    requires given { AreGiven model.now found.now given.now }
    requires values { IsSolution model.now values.now }
    ensures { IfOk result (λ passes. IsTrue passes ↔ PassesCuts model.now found.now values.now) }
{
    match model.goal {
        Goal::Satisfy => {
            let own = given_by(alloc, model.outputs.as_slice(), values)?;
            Ok(!given.has(own.as_slice()))
        }
        _ => match found.last() {
            None => Ok(true),
            Some(last) => Ok(better(model, values, last.as_slice())),
        },
    }
}

/// Notes what one more solution gives the output variables, where later ones are compared by that.
pub fn note(alloc: Global, model: &Model, given: &mut Given, values: &[i64]) -> Result<(), Memory>
    requires model { IsWellFormed model.now }
    requires values { IsSolution model.now values.now }
    requires new { model.now.goal ≡ Satisfy → is_given given.old (given_by model.now.outputs values.now) ≡ false }
    ensures { OnOk result ((found : List (List ℤ)) → AreGiven model.now found given.old → AreGiven model.now (found ++ values.now ∷ []) given.new) }
{
    if let Goal::Satisfy = model.goal {
        given.insert(given_by(alloc, model.outputs.as_slice(), values)?)?;
    }
    Ok(())
}
