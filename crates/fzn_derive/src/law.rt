// What is derived is what follows from the constraints that are cited.
ghost use Rattle.std.specs.Prelude.{◌≡◌, ℤ, List, length};
ghost use Rattle.std.specs.List.{All};
ghost use Rattle.fzn_domain.specs.IntSet.{IntSet};
ghost use Rattle.fzn_domain.specs.Narrow.{IsWithin};
ghost use Rattle.fzn_meaning.specs.declared.constraint.Constraint.{Constraint};
ghost use Rattle.fzn_meaning.specs.Meaning.{Meets, IsWellFormedConstraint, HasBooleanSets};
ghost use Rattle.fzn_derive.specs.declared.derivation.Derivation.{Derivation};
ghost use Rattle.fzn_cited.specs.declared.fault.DeriveFault.{DeriveFault};
ghost use Rattle.fzn_cited.specs.Cited.{AreMet};
ghost use Rattle.fzn_derive.specs.Derived.{cited, IsDerivedBy, IsDeriveFault};

/// Values within the declared sets that meet the constraints that a derivation cites meet the constraint that it gives.
pub fn derived_is_met()
    ensures { (given : List Constraint) (declared : List IntSet) (derivation : Derivation) (constraint : Constraint) (values : List ℤ)
        → All (IsWellFormedConstraint (length declared)) given → All (HasBooleanSets declared) given
        → IsDerivedBy given declared derivation constraint → IsWithin declared values
        → AreMet given (cited derivation) values
        → Meets constraint values }
{}

/// The constraint that a derivation gives is one that a model may have.
pub fn derived_is_formed()
    ensures { (given : List Constraint) (declared : List IntSet) (derivation : Derivation) (constraint : Constraint)
        → All (IsWellFormedConstraint (length declared)) given
        → IsDerivedBy given declared derivation constraint
        → IsWellFormedConstraint (length declared) constraint × HasBooleanSets declared constraint }
{}

/// A derivation gives one constraint or none, and where it gives none it is for one fault.
pub fn one_derived()
    ensures constraint { (given : List Constraint) (declared : List IntSet) (derivation : Derivation) (first second : Constraint)
        → IsDerivedBy given declared derivation first → IsDerivedBy given declared derivation second → first ≡ second }
    ensures none { (given : List Constraint) (declared : List IntSet) (derivation : Derivation) (constraint : Constraint) (fault : DeriveFault)
        → IsDerivedBy given declared derivation constraint → IsDeriveFault given declared derivation fault → ⊥ }
    ensures fault { (given : List Constraint) (declared : List IntSet) (derivation : Derivation) (first second : DeriveFault)
        → IsDeriveFault given declared derivation first → IsDeriveFault given declared derivation second → first ≡ second }
{}
