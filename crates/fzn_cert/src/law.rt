ghost use Rattle.std.specs.Prelude.{◌≡◌, ℕ, List, ◌∷◌, ◌++◌};
ghost use Rattle.fzn_meaning.specs.declared.model.Model.{Model};
ghost use Rattle.fzn_cert.specs.declared.step.Version.{Version};
ghost use Rattle.fzn_cert.specs.declared.step.Step.{Step};
ghost use Rattle.fzn_derive.specs.declared.derivation.Derivation.{Derivation};
ghost use Rattle.fzn_cert.specs.Spelling.{IsSpelled, step_line};
ghost use Rattle.fzn_cert.specs.Derivations.{IsDerivation, derivation_text};
ghost use Rattle.fzn_cert.specs.Verdict.{Outcome, Verdict};

/// No step's line begins another's, so a line has at most one step, and what was written is read again whatever follows.
pub fn one_line()
    ensures { (v w : Version) (a b : Step) (x y : List ℕ) → IsSpelled v a → IsSpelled w b
        → step_line a ++ x ≡ step_line b ++ y → (a ≡ b) × (x ≡ y) }
{}

/// No derivation's line begins another's, so a line has at most one derivation, and what was written is read again whatever follows.
pub fn one_derivation()
    ensures { (a b : Derivation) (x y : List ℕ) → IsDerivation a → IsDerivation b
        → derivation_text a ++ 10 ∷ x ≡ derivation_text b ++ 10 ∷ y → (a ≡ b) × (x ≡ y) }
{}

/// Bytes have one verdict: they are accepted in one way, or refused at one line for one reason.
pub fn one_verdict()
    ensures { (model : Model) (bytes : List ℕ) (x y : Outcome) → Verdict model bytes x
        → Verdict model bytes y → x ≡ y }
{}
