//! How each constraint is written in a file.

ghost use Rattle.std.specs.Prelude.{◌≡◌, map};
ghost use Rattle.fzn_registry.specs.Spelling.{first_named};

use crate::name::Name;

pub static SPELLINGS: [(&str, Name); 51] = [
    ("int_eq", Name::IntEq),
    ("int_ne", Name::IntNe),
    ("int_le", Name::IntLe),
    ("int_lt", Name::IntLt),
    ("int_lin_eq", Name::IntLinEq),
    ("int_lin_le", Name::IntLinLe),
    ("int_lin_ne", Name::IntLinNe),
    ("int_plus", Name::IntPlus),
    ("int_times", Name::IntTimes),
    ("int_div", Name::IntDiv),
    ("int_mod", Name::IntMod),
    ("int_min", Name::IntMin),
    ("int_max", Name::IntMax),
    ("int_abs", Name::IntAbs),
    ("array_int_maximum", Name::ArrayIntMaximum),
    ("array_int_minimum", Name::ArrayIntMinimum),
    ("array_int_element", Name::ArrayIntElement),
    ("array_var_int_element", Name::ArrayVarIntElement),
    ("array_bool_element", Name::ArrayBoolElement),
    ("array_var_bool_element", Name::ArrayVarBoolElement),
    ("set_in", Name::SetIn),
    ("bool_eq", Name::BoolEq),
    ("bool_le", Name::BoolLe),
    ("bool_lt", Name::BoolLt),
    ("bool_not", Name::BoolNot),
    ("bool_and", Name::BoolAnd),
    ("bool_or", Name::BoolOr),
    ("bool_xor", Name::BoolXor),
    ("array_bool_and", Name::ArrayBoolAnd),
    ("array_bool_or", Name::ArrayBoolOr),
    ("array_bool_xor", Name::ArrayBoolXor),
    ("bool_clause", Name::BoolClause),
    ("bool2int", Name::Bool2Int),
    ("bool_lin_eq", Name::BoolLinEq),
    ("bool_lin_le", Name::BoolLinLe),
    ("fzn_all_different_int", Name::FznAllDifferentInt),
    ("fzn_table_int", Name::FznTableInt),
    ("fzn_cumulative", Name::FznCumulative),
    ("fzn_circuit", Name::FznCircuit),
    ("fzn_inverse", Name::FznInverse),
    ("int_eq_reif", Name::IntEqReif),
    ("int_ne_reif", Name::IntNeReif),
    ("int_le_reif", Name::IntLeReif),
    ("int_lt_reif", Name::IntLtReif),
    ("int_lin_eq_reif", Name::IntLinEqReif),
    ("int_lin_le_reif", Name::IntLinLeReif),
    ("int_lin_ne_reif", Name::IntLinNeReif),
    ("set_in_reif", Name::SetInReif),
    ("bool_eq_reif", Name::BoolEqReif),
    ("bool_le_reif", Name::BoolLeReif),
    ("bool_lt_reif", Name::BoolLtReif),
];

/// The constraint that stands first in the rows under this name.
pub fn first_named(mut rows: &[(&str, Name)], name: &[u8]) -> Option<Name>
    ensures { result ≡ first_named (map (λ row. (row.0.now, row.1)) rows.entry.now) name.now }
{
    while let [row, rest @ ..] = rows {
        if row.0.as_bytes() == name {
            return Some(row.1);
        }
        rows = rest;
    }
    None
}
