// The line of each constraint.
ghost use Rattle.std.specs.Prelude.{◌≡◌, ◌+◌, ◌≤◌, ◌^◌, ◌++◌, length, OnOk};
ghost use Rattle.std.specs.List.{flat_map};
ghost use Rattle.fzn_names.specs.Known.{known};
ghost use Rattle.fzn_names.specs.Values.{term_of};
ghost use Rattle.fzn_typing.specs.Models.{written};
ghost use Rattle.fzn_items.specs.Pieces.{number_text};
ghost use Rattle.fzn_items.specs.Statements.{name_text, basic_text, arg_text, defines_text, numbered_text, head_of, con_line, con_lines, equality_name, pair_text, equality_line, value_lines, entry_line, entry_lines, element_lines, var_lines, written_lines};

use crate::marks::defined_by;
use crate::pieces::{
    push_bytes, push_number, push_number_of, push_place, push_position, push_variable,
};
use fzn_domain::VarId;
use fzn_lexer::Span;
use fzn_meaning::Kind;
use fzn_names::{Declared, Names, kind_of, term_of};
use fzn_sources::count_of;
use fzn_tree::{Arg, Base, Basic, Con, Name, SingleVar, Var};
use std::alloc::AllocError;

// ---- arguments

fn push_name(text: &mut Vec<u8>, names: &Names, name: &Name) -> Result<(), AllocError>
    ensures { OnOk result (text.new.items ≡ text.old.items ++ name_text (known names.now) name.now) }
{
    match names.meaning(&name.text) {
        Some(Declared::Variable(_, var)) => push_variable(text, *var),
        Some(Declared::Array(..)) => {
            push_bytes(text, b" ")?;
            push_bytes(text, name.text.as_slice())
        }
        _ => Ok(()),
    }
}

fn push_value(text: &mut Vec<u8>, names: &Names, value: &Basic) -> Result<(), AllocError>
    ensures { OnOk result (text.new.items ≡ text.old.items ++ basic_text (known names.now) value.now) }
{
    match value {
        Basic::Literal(_) => Ok(()),
        Basic::Name(name) => push_name(text, names, name),
    }
}

fn push_variables(
    text: &mut Vec<u8>,
    names: &Names,
    mut entries: &[Basic],
) -> Result<(), AllocError>
    ensures { OnOk result (text.new.items ≡ text.old.items ++ flat_map (λ entry. number_text (term_of (known names.now) entry)) entries.now) }
{
    while let [entry, rest @ ..] = entries {
        push_number_of(text, term_of(names, entry))?;
        entries = rest;
    }
    Ok(())
}

fn push_arg(text: &mut Vec<u8>, names: &Names, arg: &Arg) -> Result<(), AllocError>
    ensures { OnOk result (text.new.items ≡ text.old.items ++ arg_text (known names.now) arg.now) }
{
    match arg {
        Arg::Basic(basic) => push_value(text, names, basic),
        Arg::Array(array) => push_variables(text, names, array.entries.as_slice()),
    }
}

fn push_args(text: &mut Vec<u8>, names: &Names, mut args: &[Arg]) -> Result<(), AllocError>
    ensures { OnOk result (text.new.items ≡ text.old.items ++ flat_map (arg_text (known names.now)) args.now) }
{
    while let [arg, rest @ ..] = args {
        push_arg(text, names, arg)?;
        args = rest;
    }
    Ok(())
}

// ---- one constraint

fn push_defined(text: &mut Vec<u8>, defined: Option<VarId>) -> Result<(), AllocError>
    ensures { OnOk result (text.new.items ≡ text.old.items ++ defines_text defined) }
{
    match defined {
        None => Ok(()),
        Some(var) => {
            push_bytes(text, b" defines")?;
            push_variable(text, var)
        }
    }
}

/// The number of the constraint, and its name.
fn push_numbered(text: &mut Vec<u8>, number: usize, name: &[u8]) -> Result<(), AllocError>
    ensures { OnOk result (text.new.items ≡ text.old.items ++ numbered_text number name.now) }
{
    push_bytes(text, b"constraint ")?;
    push_number(text, number)?;
    push_bytes(text, b" ")?;
    push_bytes(text, name)
}

/// The line of a constraint up to what it is about.
fn push_head(
    text: &mut Vec<u8>,
    number: usize,
    name: &[u8],
    item: Span,
    defined: Option<VarId>,
) -> Result<(), AllocError>
    ensures { OnOk result (text.new.items ≡ text.old.items ++ head_of number name.now item defined) }
{
    push_numbered(text, number, name)?;
    push_position(text, item.position)?;
    push_place(text, item)?;
    push_defined(text, defined)?;
    push_bytes(text, b" :")
}

// ---- constraint items

fn push_con(
    text: &mut Vec<u8>,
    names: &Names,
    number: usize,
    item: Span,
    con: &Con,
) -> Result<(), AllocError>
    ensures { OnOk result (text.new.items ≡ text.old.items ++ con_line (known names.now) number item con.now) }
{
    let defined = defined_by(names, con.anns.as_slice());
    push_head(text, number, con.name.text.as_slice(), item, defined)?;
    push_args(text, names, con.args.as_slice())?;
    push_bytes(text, b"\n")
}

/// The lines of these constraint items, where the first has this number.
pub fn push_cons(
    text: &mut Vec<u8>,
    names: &Names,
    first: usize,
    mut cons: &[Con],
    mut items: &[Span],
) -> Result<(), AllocError>
    requires { first + length cons.now ≤ 2 ^ 32 }
    ensures { OnOk result (text.new.items ≡ text.old.items ++ con_lines (known names.now) first cons.now items.now) }
{
    let mut number = first;
    while let [con, later @ ..] = cons {
        let [item, further @ ..] = items else {
            return Ok(());
        };
        push_con(text, names, number, *item, con)?;
        number += 1;
        cons = later;
        items = further;
    }
    Ok(())
}

// ---- declarations

fn equality_name(kind: Kind) -> &'static [u8]
    ensures { result.now ≡ equality_name kind }
{
    match kind {
        Kind::Integer => b"int_eq",
        Kind::Boolean => b"bool_eq",
    }
}

fn push_pair(
    text: &mut Vec<u8>,
    names: &Names,
    name: &Name,
    value: &Basic,
) -> Result<(), AllocError>
    ensures { OnOk result (text.new.items ≡ text.old.items ++ pair_text (known names.now) name.now value.now) }
{
    push_name(text, names, name)?;
    push_value(text, names, value)
}

fn push_equality(
    text: &mut Vec<u8>,
    names: &Names,
    number: usize,
    item: Span,
    var: &SingleVar,
    value: &Basic,
) -> Result<(), AllocError>
    ensures { OnOk result (text.new.items ≡ text.old.items ++ equality_line (known names.now) number item var.now value.now) }
{
    let name = equality_name(kind_of(&var.base));
    push_head(text, number, name, item, None)?;
    push_pair(text, names, &var.name, value)?;
    push_bytes(text, b"\n")
}

/// The constraint of the value, where one is written.
fn push_written(
    text: &mut Vec<u8>,
    names: &Names,
    number: usize,
    item: Span,
    var: &SingleVar,
) -> Result<(), AllocError>
    ensures { OnOk result (text.new.items ≡ text.old.items ++ value_lines (known names.now) number item var.now var.now.value) }
{
    match &var.value {
        None => Ok(()),
        Some(value) => push_equality(text, names, number, item, var, value),
    }
}

fn push_entry_line(
    text: &mut Vec<u8>,
    names: &Names,
    number: usize,
    item: Span,
    entry: &Basic,
) -> Result<(), AllocError>
    ensures { OnOk result (text.new.items ≡ text.old.items ++ entry_line (known names.now) number item entry.now) }
{
    push_head(text, number, b"set_in", item, None)?;
    push_number_of(text, term_of(names, entry))?;
    push_bytes(text, b"\n")
}

fn push_entry_lines(
    text: &mut Vec<u8>,
    names: &Names,
    first: usize,
    item: Span,
    mut entries: &[Basic],
) -> Result<(), AllocError>
    requires { first + length entries.now ≤ 2 ^ 32 }
    ensures { OnOk result (text.new.items ≡ text.old.items ++ entry_lines (known names.now) first item entries.now) }
{
    let mut number = first;
    while let [entry, rest @ ..] = entries {
        push_entry_line(text, names, number, item, entry)?;
        number += 1;
        entries = rest;
    }
    Ok(())
}

fn push_var(
    text: &mut Vec<u8>,
    names: &Names,
    number: usize,
    item: Span,
    var: &Var,
) -> Result<(), AllocError>
    requires { number + length (written (known names.now) var.now) ≤ 2 ^ 32 }
    ensures { OnOk result (text.new.items ≡ text.old.items ++ var_lines (known names.now) number item var.now) }
{
    match var {
        Var::Single(single) => push_written(text, names, number, item, single),
        Var::Array(array) => match &array.base {
            Base::Values(_) => {
                push_entry_lines(text, names, number, item, array.array.entries.as_slice())
            }
            _ => Ok(()),
        },
    }
}

/// The lines of what these declarations state, where the first constraint has this number.
pub fn push_stated(
    text: &mut Vec<u8>,
    names: &Names,
    first: usize,
    mut vars: &[Var],
    mut items: &[Span],
) -> Result<(), AllocError>
    requires { first + length (flat_map (written (known names.now)) vars.now) ≤ 2 ^ 32 }
    ensures { OnOk result (text.new.items ≡ text.old.items ++ written_lines (known names.now) first vars.now items.now) }
{
    let mut number = first;
    while let [var, later @ ..] = vars {
        let [item, further @ ..] = items else {
            return Ok(());
        };
        push_var(text, names, number, *item, var)?;
        number += count_of(var);
        vars = later;
        items = further;
    }
    Ok(())
}
