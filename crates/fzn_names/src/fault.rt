// The faults of a variable or an array, and how many constraints it adds.
ghost use Rattle.std.specs.Prelude.{◌≡◌, ◌≤◌, ◌++◌, length, flat_map};
ghost use Rattle.fzn_meaning.specs.Meaning.{longest};
ghost use Rattle.fzn_names.specs.Faults.{set_types, unbounded_types, wanted_of, unknown_values, wrong_written, added_by_value, added_by_entries, added_by, passes_limit, single_faults, array_faults, var_faults};
ghost use Rattle.fzn_names.specs.Known.{known};
ghost use Rattle.fzn_names.specs.Limits.{IsVarWithin};
ghost use Rattle.fzn_names.specs.Positions.{first};
ghost use Rattle.fzn_names.specs.Types.{sets_in};

use crate::annotation::{array_mark_fault, mark_fault};
use crate::domain::kind_of;
use crate::entry::{first_set_in, first_unknown_in, first_wrong_in};
use crate::names::Names;
use crate::value::{unknown_in, wrong_in};
use fzn_lexer::{Fault, FaultKind, Position};
use fzn_list::LONGEST;
use fzn_meaning::Kind;
use fzn_registry::Argument;
use fzn_tree::{ArrayVar, Base, Basic, SingleVar, Var};

fn wanted_of(kind: Kind) -> Argument
    ensures { result ≡ wanted_of kind }
{
    match kind {
        Kind::Integer => Argument::Integer,
        Kind::Boolean => Argument::Boolean,
    }
}

fn set_type(base: &Base) -> Option<Position>
    ensures { result ≡ first (set_types base.now) }
{
    match base {
        Base::Set(position, _) => Some(*position),
        _ => None,
    }
}

fn unbounded_type(base: &Base) -> Option<Position>
    ensures { result ≡ first (unbounded_types base.now) }
{
    match base {
        Base::Int(position) => Some(*position),
        _ => None,
    }
}

/// Whether more constraints beside these pass the limit.
fn passes(before: usize, more: usize) -> bool
    requires before { before ≤ longest }
    requires more { more ≤ longest }
    ensures { result ≡ passes_limit before more }
{
    before + more > LONGEST
}

// ---- single variables

fn unknown_value(earlier: &Names, value: &Option<Basic>) -> Option<Position>
    ensures { result ≡ first (unknown_values (known earlier.now) value.now) }
{
    match value {
        None => None,
        Some(basic) => unknown_in(earlier, basic),
    }
}

fn wrong_written(earlier: &Names, wanted: Argument, value: &Option<Basic>) -> Option<Position>
    ensures { result ≡ first (wrong_written (known earlier.now) wanted value.now) }
{
    match value {
        None => None,
        Some(basic) => wrong_in(earlier, wanted, basic),
    }
}

fn added_by_value(value: &Option<Basic>) -> usize
    ensures count { result ≡ added_by_value value.now }
    ensures few { result ≤ longest }
{
    match value {
        None => 0,
        Some(_) => 1,
    }
}

/// The first fault of a variable behind these names and this many constraints.
#[tactic(auto, using(crate::proofs::CallerLemmas::firsts), unfolding(crate::specs::Faults::single_faults))]
fn single_fault(earlier: &Names, before: usize, var: &SingleVar) -> Option<Fault>
    requires { before ≤ longest }
    ensures { result ≡ first (single_faults (known earlier.now) before var.now) }
{
    if let Some(position) = set_type(&var.base) {
        return Some(Fault {
            kind: FaultKind::SetRefused,
            position,
        });
    }
    if let Some(position) = unbounded_type(&var.base) {
        return Some(Fault {
            kind: FaultKind::UnboundedInt,
            position,
        });
    }
    if earlier.meaning(&var.name.text).is_some() {
        return Some(Fault {
            kind: FaultKind::DuplicateName,
            position: var.name.position,
        });
    }
    if let Some(position) = unknown_value(earlier, &var.value) {
        return Some(Fault {
            kind: FaultKind::UnknownName,
            position,
        });
    }
    if let Some(position) = wrong_written(earlier, wanted_of(kind_of(&var.base)), &var.value) {
        return Some(Fault {
            kind: FaultKind::Type,
            position,
        });
    }
    if passes(before, added_by_value(&var.value)) {
        return Some(Fault {
            kind: FaultKind::TooMany,
            position: var.name.position,
        });
    }
    match mark_fault(var.anns.as_slice()) {
        Some(position) => Some(Fault {
            kind: FaultKind::OutputAnnotation,
            position,
        }),
        None => None,
    }
}

// ---- arrays

#[tactic(auto, using(crate::proofs::CallerLemmas::firsts))]
fn refused_set(earlier: &Names, var: &ArrayVar) -> Option<Position>
    ensures { result ≡ first (set_types var.now.base ++ flat_map (sets_in (known earlier.now)) var.now.array.entries) }
{
    match set_type(&var.base) {
        Some(position) => Some(position),
        None => first_set_in(earlier, var.array.entries.as_slice()),
    }
}

fn added_by_entries(base: &Base, entries: &[Basic]) -> usize
    ensures count { result ≡ added_by_entries base.now entries.now }
    ensures few { result ≤ length entries.now }
{
    match base {
        Base::Values(_) => entries.len(),
        _ => 0,
    }
}

/// The first fault of an array behind these names and this many constraints.
#[tactic(auto, using(crate::proofs::CallerLemmas::firsts), unfolding(crate::specs::Faults::array_faults))]
fn array_fault(earlier: &Names, before: usize, var: &ArrayVar) -> Option<Fault>
    requires before { before ≤ longest }
    requires few { length var.now.array.entries ≤ longest }
    ensures { result ≡ first (array_faults (known earlier.now) before var.now) }
{
    let entries = var.array.entries.as_slice();
    if let Some(position) = refused_set(earlier, var) {
        return Some(Fault {
            kind: FaultKind::SetRefused,
            position,
        });
    }
    if earlier.meaning(&var.name.text).is_some() {
        return Some(Fault {
            kind: FaultKind::DuplicateName,
            position: var.name.position,
        });
    }
    if let Some(position) = first_unknown_in(earlier, entries) {
        return Some(Fault {
            kind: FaultKind::UnknownName,
            position,
        });
    }
    if let Some(position) = first_wrong_in(earlier, wanted_of(kind_of(&var.base)), entries) {
        return Some(Fault {
            kind: FaultKind::Type,
            position,
        });
    }
    if entries.len() != var.size.count {
        return Some(Fault {
            kind: FaultKind::Length,
            position: var.array.position,
        });
    }
    if passes(before, added_by_entries(&var.base, entries)) {
        return Some(Fault {
            kind: FaultKind::TooMany,
            position: var.name.position,
        });
    }
    match array_mark_fault(entries.len(), var.anns.as_slice()) {
        Some(position) => Some(Fault {
            kind: FaultKind::OutputAnnotation,
            position,
        }),
        None => None,
    }
}

// ---- one or the other

/// The first fault of a declaration behind these names and this many constraints.
pub fn var_fault(earlier: &Names, before: usize, var: &Var) -> Option<Fault>
    requires before { before ≤ longest }
    requires within { IsVarWithin var.now }
    ensures { result ≡ first (var_faults (known earlier.now) before var.now) }
{
    match var {
        Var::Single(single) => single_fault(earlier, before, single),
        Var::Array(array) => array_fault(earlier, before, array),
    }
}

/// How many constraints the declaration adds.
pub fn added_by(var: &Var) -> usize
    requires { IsVarWithin var.now }
    ensures count { result ≡ added_by var.now }
    ensures few { result ≤ longest }
{
    match var {
        Var::Single(single) => added_by_value(&single.value),
        Var::Array(array) => added_by_entries(&array.base, array.array.entries.as_slice()),
    }
}
