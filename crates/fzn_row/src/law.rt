// What is derived is what follows from the constraints that are cited.
ghost use Rattle.std.specs.Prelude.{◌≡◌, ℕ, ℤ, List, length};
ghost use Rattle.std.specs.List.{All};
ghost use Rattle.fzn_domain.specs.IntSet.{IntSet};
ghost use Rattle.fzn_domain.specs.Narrow.{IsWithin};
ghost use Rattle.fzn_meaning.specs.declared.constraint.Constraint.{Constraint};
ghost use Rattle.fzn_meaning.specs.Meaning.{IsWellFormedConstraint, HasBooleanSets};
ghost use Rattle.fzn_cited.specs.declared.fault.DeriveFault.{DeriveFault};
ghost use Rattle.fzn_cited.specs.Cited.{AreMet};
ghost use Rattle.fzn_meaning.specs.declared.row.Row.{Row};
ghost use Rattle.fzn_row.specs.declared.item.RowItem.{RowItem};
ghost use Rattle.fzn_meaning.specs.Separable.{IsSeparableRow, RowHolds};
ghost use Rattle.fzn_row.specs.Derived.{all_cited, IsDerivedRow, IsRowFault};

/// Values within the declared sets that meet the constraints that the items cite meet the row that they make.
pub fn derived_row_holds()
    ensures { (given : List Constraint) (declared : List IntSet) (most : ℕ) (items : List RowItem) (row : Row) (values : List ℤ)
        → All (IsWellFormedConstraint (length declared)) given → All (HasBooleanSets declared) given
        → IsDerivedRow given declared most items row → IsWithin declared values
        → AreMet given (all_cited items) values
        → RowHolds row values }
{}

/// The row that items make is one that a model may have.
pub fn derived_row_is_formed()
    ensures { (given : List Constraint) (declared : List IntSet) (most : ℕ) (items : List RowItem) (row : Row)
        → All (IsWellFormedConstraint (length declared)) given
        → IsDerivedRow given declared most items row
        → IsSeparableRow (length declared) row }
{}

/// Items make one row or none, and where they make none it is for one fault.
pub fn one_derived_row()
    ensures row { (given : List Constraint) (declared : List IntSet) (most : ℕ) (items : List RowItem) (first second : Row)
        → IsDerivedRow given declared most items first → IsDerivedRow given declared most items second → first ≡ second }
    ensures none { (given : List Constraint) (declared : List IntSet) (most : ℕ) (items : List RowItem) (row : Row) (fault : DeriveFault)
        → IsDerivedRow given declared most items row → IsRowFault given declared most items fault → ⊥ }
    ensures fault { (given : List Constraint) (declared : List IntSet) (most : ℕ) (items : List RowItem) (first second : DeriveFault)
        → IsRowFault given declared most items first → IsRowFault given declared most items second → first ≡ second }
{}
