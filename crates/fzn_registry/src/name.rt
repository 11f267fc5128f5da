//! The names of the constraints.

use crate::signature::Argument::{
    Boolean, BooleanConstantList, BooleanList, Integer, IntegerConstant, IntegerConstantList,
    IntegerList, Set,
};
use crate::signature::{Argument, Lengths};

/// A constraint by its name (MiniZinc Handbook, FlatZinc builtins; Global Constraint Catalog). A file spells it as here in small letters
/// with `_` between the words, as `int_lin_eq` for `IntLinEq`, but `bool2int` for `Bool2Int`. The last argument of a form `Reif` tells
/// whether the plain form holds.
#[derive(Clone, Copy, Debug, PartialEq, Eq)]
pub enum Name {
    IntEq,
    IntNe,
    IntLe,
    IntLt,
    IntLinEq,
    IntLinLe,
    IntLinNe,
    IntPlus,
    IntTimes,
    IntDiv,
    IntMod,
    IntMin,
    IntMax,
    IntAbs,
    ArrayIntMaximum,
    ArrayIntMinimum,
    ArrayIntElement,
    ArrayVarIntElement,
    ArrayBoolElement,
    ArrayVarBoolElement,
    SetIn,
    BoolEq,
    BoolLe,
    BoolLt,
    BoolNot,
    BoolAnd,
    BoolOr,
    BoolXor,
    ArrayBoolAnd,
    ArrayBoolOr,
    ArrayBoolXor,
    BoolClause,
    Bool2Int,
    BoolLinEq,
    BoolLinLe,
    FznAllDifferentInt,
    FznTableInt,
    FznCumulative,
    FznCircuit,
    FznInverse,
    IntEqReif,
    IntNeReif,
    IntLeReif,
    IntLtReif,
    IntLinEqReif,
    IntLinLeReif,
    IntLinNeReif,
    SetInReif,
    BoolEqReif,
    BoolLeReif,
    BoolLtReif,
}

impl Name {
    ghost use Rattle.std.specs.Prelude.{◌≡◌};
    ghost use Rattle.fzn_registry.specs.Registry.{arguments_of, lengths_of, non_negative_of};

    /// The kinds of its arguments, in order.
    #[tactic(auto, unfolding(crate::specs::Registry::row, crate::specs::Registry::arguments_of))]
    pub fn arguments(self) -> &'static [Argument]
        ensures { result.now ≡ arguments_of self }
    {
        match self {
            Name::IntEq | Name::IntNe | Name::IntLe | Name::IntLt => &[Integer, Integer],
            Name::IntLinEq | Name::IntLinLe | Name::IntLinNe => &[
                IntegerConstantList,
                IntegerList,
                IntegerConstant,
            ],
            Name::IntPlus | Name::IntTimes => &[Integer, Integer, Integer],
            Name::IntDiv => &[Integer, Integer, Integer],
            Name::IntMod => &[Integer, Integer, Integer],
            Name::IntMin | Name::IntMax => &[Integer, Integer, Integer],
            Name::IntAbs => &[Integer, Integer],
            Name::ArrayIntMaximum | Name::ArrayIntMinimum => &[Integer, IntegerList],
            Name::ArrayIntElement => &[Integer, IntegerConstantList, Integer],
            Name::ArrayVarIntElement => &[Integer, IntegerList, Integer],
            Name::ArrayBoolElement => &[Integer, BooleanConstantList, Boolean],
            Name::ArrayVarBoolElement => &[Integer, BooleanList, Boolean],
            Name::SetIn => &[Integer, Set],
            Name::BoolEq | Name::BoolLe | Name::BoolLt => &[Boolean, Boolean],
            Name::BoolNot => &[Boolean, Boolean],
            Name::BoolAnd | Name::BoolOr | Name::BoolXor => &[Boolean, Boolean, Boolean],
            Name::ArrayBoolAnd | Name::ArrayBoolOr => &[BooleanList, Boolean],
            Name::ArrayBoolXor => &[BooleanList],
            Name::BoolClause => &[BooleanList, BooleanList],
            Name::Bool2Int => &[Boolean, Integer],
            Name::BoolLinEq => &[IntegerConstantList, BooleanList, Integer],
            Name::BoolLinLe => &[IntegerConstantList, BooleanList, IntegerConstant],
            Name::FznAllDifferentInt => &[IntegerList],
            Name::FznTableInt => &[IntegerList, IntegerConstantList],
            Name::FznCumulative => &[IntegerList, IntegerList, IntegerList, Integer],
            Name::FznCircuit => &[IntegerList],
            Name::FznInverse => &[IntegerList, IntegerList],
            Name::IntEqReif | Name::IntNeReif | Name::IntLeReif | Name::IntLtReif => &[
                Integer, Integer, Boolean,
            ],
            Name::IntLinEqReif | Name::IntLinLeReif | Name::IntLinNeReif => &[
                IntegerConstantList,
                IntegerList,
                IntegerConstant,
                Boolean,
            ],
            Name::SetInReif => &[Integer, Set, Boolean],
            Name::BoolEqReif | Name::BoolLeReif | Name::BoolLtReif => &[Boolean, Boolean, Boolean],
        }
    }

    /// What is asked of the lengths of its lists.
    #[tactic(auto, unfolding(crate::specs::Registry::lengths_of))]
    pub fn lengths(self) -> Lengths
        ensures { result ≡ lengths_of self }
    {
        match self {
            Name::IntLinEq
            | Name::IntLinLe
            | Name::IntLinNe
            | Name::IntLinEqReif
            | Name::IntLinLeReif
            | Name::IntLinNeReif
            | Name::BoolLinEq
            | Name::BoolLinLe
            | Name::FznInverse => Lengths::SameLength(0, 1),
            Name::ArrayIntMaximum | Name::ArrayIntMinimum => Lengths::NotEmpty(1),
            Name::FznTableInt => Lengths::Table { row: 0, table: 1 },
            Name::FznCumulative => Lengths::Tasks(0, 1, 2),
            _ => Lengths::Free,
        }
    }

    /// The places of the arguments whose constants must not be below 0, counted from 0.
    #[tactic(auto, unfolding(crate::specs::Registry::non_negative_of))]
    pub fn non_negative(self) -> &'static [usize]
        ensures { result.now ≡ non_negative_of self }
    {
        match self {
            Name::FznCumulative => &[1, 2, 3],
            _ => &[],
        }
    }
}
