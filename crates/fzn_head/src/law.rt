// What a certificate of any version is worth.
ghost use Rattle.std.specs.Prelude.{◌≡◌, ◌↔◌, ◌+◌, ◌≤◌, ℕ, ℤ, Bool, true, List, length};
ghost use Rattle.fzn_meaning.specs.declared.model.Model.{Model};
ghost use Rattle.fzn_meaning.specs.Meaning.{longest};
ghost use Rattle.fzn_meaning.specs.Solutions.{IsSolution, IsProper, IsExhausted};
ghost use Rattle.fzn_meaning.specs.WellFormed.{IsWellFormed};
ghost use Rattle.fzn_derive.specs.declared.derivation.Derivation.{Derivation};
ghost use Rattle.fzn_cert.specs.Verdict.{Outcome, accepted};
ghost use Rattle.fzn_head.specs.Extended.{Extends};
ghost use Rattle.fzn_head.specs.Outcome.{IsOutcomeOf};

/// A model with derived constraints has the solutions that it has without them, and it is one that a file may state where it has at most
/// 100,000 constraints.
pub fn same_solutions()
    ensures solutions { (model after : Model) (derivations : List Derivation) (values : List ℤ) → IsWellFormed model → length after.constraints ≤ longest
        → Extends model derivations after → IsSolution after values ↔ IsSolution model values }
    ensures formed { (model after : Model) (derivations : List Derivation) → IsWellFormed model → length after.constraints ≤ longest
        → Extends model derivations after → IsWellFormed after }
{}

/// Bytes have one verdict: they are accepted in one way, or refused at one line for one reason.
pub fn one_outcome()
    ensures { (model : Model) (bytes : List ℕ) (x y : Outcome) → IsOutcomeOf model bytes x → IsOutcomeOf model bytes y → x ≡ y }
{}

/// What an accepted certificate shows is true of the model: its solutions are a proper list, and an exhausted one where it is closed.
pub fn outcome_is_true()
    ensures proper { (model : Model) (bytes : List ℕ) (found : List (List ℤ)) (closed : Bool) → IsWellFormed model
        → IsOutcomeOf model bytes (accepted found closed) → IsProper model found }
    ensures exhausted { (model : Model) (bytes : List ℕ) (found : List (List ℤ)) (closed : Bool) → IsWellFormed model
        → IsOutcomeOf model bytes (accepted found closed) → closed ≡ true → IsExhausted model found }
{}
