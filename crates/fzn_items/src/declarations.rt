// The lines of parameters, variables and arrays.
ghost use Rattle.std.specs.Prelude.{◌≡◌, ◌≤◌, ◌++◌, length, OnOk};
ghost use Rattle.std.specs.List.{All, flat_map};
ghost use Rattle.fzn_meaning.specs.Meaning.{longest};
ghost use Rattle.fzn_names.specs.Known.{known};
ghost use Rattle.fzn_names.specs.Limits.{IsVarWithin};
ghost use Rattle.fzn_names.specs.Values.{term_of};
ghost use Rattle.fzn_items.specs.Declarations.{parameter_line, parameter_lines, after_comma, listed_text, values_text, type_text, single_text, marks_text, single_line, dimension_text, ranges_text, shown_text, array_text, cells_text, array_line, declaration_line, declaration_lines};
ghost use Rattle.fzn_items.specs.Pieces.{term_text};

use crate::marks::is_defined;
use crate::pieces::{push_bytes, push_entry, push_integer, push_mark, push_number_of, push_place};
use fzn_lexer::Span;
use fzn_meaning::IndexRange;
use fzn_names::{Names, is_array_mark, is_marked, ranges_of, term_of, variable_of};
use fzn_tree::{Ann, ArrayVar, Base, Basic, Name, Param, SingleVar, Values, Var};
use std::alloc::{AllocError, Global};

// ---- parameters

fn push_parameter(text: &mut Vec<u8>, item: Span, param: &Param) -> Result<(), AllocError>
    ensures { OnOk result (text.new.items ≡ text.old.items ++ parameter_line item param.now) }
{
    push_bytes(text, b"parameter ")?;
    push_bytes(text, param.name.text.as_slice())?;
    push_place(text, item)?;
    push_bytes(text, b"\n")
}

/// The lines of these parameters, with their items.
pub fn push_parameters(
    text: &mut Vec<u8>,
    mut params: &[Param],
    mut items: &[Span],
) -> Result<(), AllocError>
    ensures { OnOk result (text.new.items ≡ text.old.items ++ parameter_lines params.now items.now) }
{
    while let [param, later @ ..] = params {
        let [item, further @ ..] = items else {
            return Ok(());
        };
        push_parameter(text, *item, param)?;
        params = later;
        items = further;
    }
    Ok(())
}

// ---- variables

fn push_further(text: &mut Vec<u8>, values: &[i64]) -> Result<(), AllocError>
    ensures { OnOk result (text.new.items ≡ text.old.items ++ flat_map after_comma values.now) }
{
    for value in values {
        push_bytes(text, b",")?;
        push_integer(text, *value)?;
    }
    Ok(())
}

fn push_listed(text: &mut Vec<u8>, values: &[i64]) -> Result<(), AllocError>
    ensures { OnOk result (text.new.items ≡ text.old.items ++ listed_text values.now) }
{
    let [value, more @ ..] = values else {
        return push_bytes(text, b"{}");
    };
    push_bytes(text, b"{")?;
    push_integer(text, *value)?;
    push_further(text, more)?;
    push_bytes(text, b"}")
}

/// The set as it is declared.
fn push_values(text: &mut Vec<u8>, values: &Values) -> Result<(), AllocError>
    ensures { OnOk result (text.new.items ≡ text.old.items ++ values_text values.now) }
{
    match values {
        Values::Range(range) => {
            push_integer(text, range.low.value)?;
            push_bytes(text, b"..")?;
            push_integer(text, range.high)
        }
        Values::Listed(listed) => push_listed(text, listed.as_slice()),
    }
}

fn push_type(text: &mut Vec<u8>, base: &Base) -> Result<(), AllocError>
    ensures { OnOk result (text.new.items ≡ text.old.items ++ type_text base.now) }
{
    match base {
        Base::Bool => push_bytes(text, b" bool"),
        Base::Values(values) => {
            push_bytes(text, b" int ")?;
            push_values(text, values)
        }
        _ => push_bytes(text, b" int"),
    }
}

/// The number of the variable, and its name.
fn push_single_name(text: &mut Vec<u8>, names: &Names, name: &Name) -> Result<(), AllocError>
    ensures { OnOk result (text.new.items ≡ text.old.items ++ single_text (known names.now) name.now) }
{
    push_bytes(text, b"var")?;
    push_number_of(text, variable_of(names, name))?;
    push_bytes(text, b" ")?;
    push_bytes(text, name.text.as_slice())
}

fn push_marks(text: &mut Vec<u8>, anns: &[Ann]) -> Result<(), AllocError>
    ensures { OnOk result (text.new.items ≡ text.old.items ++ marks_text anns.now) }
{
    push_mark(text, b" output", is_marked(anns))?;
    push_mark(text, b" defined", is_defined(anns))
}

fn push_single(
    text: &mut Vec<u8>,
    names: &Names,
    item: Span,
    var: &SingleVar,
) -> Result<(), AllocError>
    ensures { OnOk result (text.new.items ≡ text.old.items ++ single_line (known names.now) item var.now) }
{
    push_single_name(text, names, &var.name)?;
    push_type(text, &var.base)?;
    push_place(text, item)?;
    push_marks(text, var.anns.as_slice())?;
    push_bytes(text, b"\n")
}

// ---- arrays

fn push_index_range(text: &mut Vec<u8>, range: &IndexRange) -> Result<(), AllocError>
    ensures { OnOk result (text.new.items ≡ text.old.items ++ dimension_text range.now) }
{
    push_bytes(text, b" ")?;
    push_integer(text, range.low)?;
    push_bytes(text, b"..")?;
    push_integer(text, range.high)
}

fn push_index_ranges(text: &mut Vec<u8>, ranges: &[IndexRange]) -> Result<(), AllocError>
    ensures { OnOk result (text.new.items ≡ text.old.items ++ flat_map dimension_text ranges.now) }
{
    for range in ranges {
        push_index_range(text, range)?;
    }
    Ok(())
}

fn push_ranges(alloc: Global, text: &mut Vec<u8>, ann: &Ann) -> Result<(), AllocError>
    ensures { OnOk result (text.new.items ≡ text.old.items ++ ranges_text ann.now) }
{
    let ranges = ranges_of(alloc, ann)?;
    push_bytes(text, b" output")?;
    push_index_ranges(text, ranges.as_slice())
}

/// The output marks of an array with this many entries.
fn push_shown(
    alloc: Global,
    text: &mut Vec<u8>,
    count: usize,
    mut anns: &[Ann],
) -> Result<(), AllocError>
    requires { count ≤ longest }
    ensures { OnOk result (text.new.items ≡ text.old.items ++ shown_text count anns.now) }
{
    while let [ann, rest @ ..] = anns {
        if is_array_mark(count, ann) {
            push_ranges(alloc, text, ann)?;
        }
        anns = rest;
    }
    Ok(())
}

fn push_entries(text: &mut Vec<u8>, names: &Names, mut entries: &[Basic]) -> Result<(), AllocError>
    ensures { OnOk result (text.new.items ≡ text.old.items ++ flat_map (λ entry. term_text (term_of (known names.now) entry)) entries.now) }
{
    while let [entry, rest @ ..] = entries {
        push_entry(text, term_of(names, entry))?;
        entries = rest;
    }
    Ok(())
}

fn push_all_entries(text: &mut Vec<u8>, names: &Names, entries: &[Basic]) -> Result<(), AllocError>
    ensures { OnOk result (text.new.items ≡ text.old.items ++ cells_text (known names.now) entries.now) }
{
    push_bytes(text, b" :")?;
    push_entries(text, names, entries)
}

/// The name of the array, and its item.
fn push_array_name(text: &mut Vec<u8>, name: &Name, item: Span) -> Result<(), AllocError>
    ensures { OnOk result (text.new.items ≡ text.old.items ++ array_text name.now item) }
{
    push_bytes(text, b"array ")?;
    push_bytes(text, name.text.as_slice())?;
    push_place(text, item)
}

fn push_array(
    alloc: Global,
    text: &mut Vec<u8>,
    names: &Names,
    item: Span,
    var: &ArrayVar,
) -> Result<(), AllocError>
    requires { length var.now.array.entries ≤ longest }
    ensures { OnOk result (text.new.items ≡ text.old.items ++ array_line (known names.now) item var.now) }
{
    push_array_name(text, &var.name, item)?;
    push_shown(alloc, text, var.array.entries.len(), var.anns.as_slice())?;
    push_all_entries(text, names, var.array.entries.as_slice())?;
    push_bytes(text, b"\n")
}

// ---- one or the other

fn push_declaration(
    alloc: Global,
    text: &mut Vec<u8>,
    names: &Names,
    item: Span,
    var: &Var,
) -> Result<(), AllocError>
    requires { IsVarWithin var.now }
    ensures { OnOk result (text.new.items ≡ text.old.items ++ declaration_line (known names.now) item var.now) }
{
    match var {
        Var::Single(single) => push_single(text, names, item, single),
        Var::Array(array) => push_array(alloc, text, names, item, array),
    }
}

/// The lines of these variables and arrays, with their items.
pub fn push_declarations(
    alloc: Global,
    text: &mut Vec<u8>,
    names: &Names,
    mut vars: &[Var],
    mut items: &[Span],
) -> Result<(), AllocError>
    requires { All IsVarWithin vars.now }
    ensures { OnOk result (text.new.items ≡ text.old.items ++ declaration_lines (known names.now) vars.now items.now) }
{
    while let [var, later @ ..] = vars {
        let [item, further @ ..] = items else {
            return Ok(());
        };
        push_declaration(alloc, text, names, *item, var)?;
        vars = later;
        items = further;
    }
    Ok(())
}
