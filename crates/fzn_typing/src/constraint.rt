// The constraint items of a file.
ghost use Rattle.std.specs.Prelude.{◌≡◌, ◌++◌, Some, flat_map, OnOk};
ghost use Rattle.std.specs.List.{All};
ghost use Rattle.fzn_names.specs.Given.{Gives};
ghost use Rattle.fzn_names.specs.Known.{known};
ghost use Rattle.fzn_names.specs.Positions.{first};
ghost use Rattle.fzn_registry.specs.Registry.{IsRow};
ghost use Rattle.fzn_typing.specs.Arguments.{has_types};
ghost use Rattle.fzn_typing.specs.Faults.{value_faults, named_faults, constraint_faults};
ghost use Rattle.fzn_typing.specs.Limits.{IsConWithin};
ghost use Rattle.fzn_typing.specs.Models.{stated};

use crate::argument::{first_set, first_unknown, first_wrong};
use crate::given::{has_lengths, has_negatives};
use crate::table::constraint_for;
use fzn_lexer::{Fault, FaultKind, Halt};
use fzn_list::Items;
use fzn_meaning::Constraint;
use fzn_names::Names;
use fzn_registry::{Argument, Signature, lookup_bytes};
use fzn_tree::{Arg, Con};
use std::alloc::{AllocError, Global};

/// The first fault of a constraint's values, where their types are right.
#[tactic(auto, using(crate::proofs::FirstLemmas::firsts))]
fn value_fault(names: &Names, con: &Con, signature: &Signature) -> Option<Fault>
    requires { IsRow signature.now }
    ensures { result ≡ first (value_faults (known names.now) con.now signature.now.name) }
{
    let args = con.args.as_slice();
    if !has_lengths(names, signature.lengths, args) {
        return Some(Fault {
            kind: FaultKind::Length,
            position: con.name.position,
        });
    }
    if has_negatives(names, args, signature.non_negative) {
        return Some(Fault {
            kind: FaultKind::Argument,
            position: con.name.position,
        });
    }
    None
}

#[tactic(auto, using(crate::proofs::FirstLemmas::firsts))]
fn named_fault(names: &Names, con: &Con, signature: &Signature) -> Option<Fault>
    requires { IsRow signature.now }
    ensures { result ≡ first (named_faults (known names.now) con.now (Some signature.now.name)) }
{
    let args = con.args.as_slice();
    if args.len() != signature.arguments.len() {
        return Some(Fault {
            kind: FaultKind::Arity,
            position: con.name.position,
        });
    }
    if let Some(position) = first_wrong(names, signature.arguments, args) {
        return Some(Fault {
            kind: FaultKind::Type,
            position,
        });
    }
    value_fault(names, con, signature)
}

/// The first fault of a constraint by all its arguments in turn.
#[tactic(auto, using(crate::proofs::FirstLemmas::firsts), unfolding(crate::specs::Faults::constraint_faults))]
fn any_fault(names: &Names, con: &Con) -> Option<Fault>
    ensures { result ≡ first (constraint_faults (known names.now) con.now) }
{
    let args = con.args.as_slice();
    if let Some(position) = first_set(names, args) {
        return Some(Fault {
            kind: FaultKind::SetRefused,
            position,
        });
    }
    if let Some(position) = first_unknown(names, args) {
        return Some(Fault {
            kind: FaultKind::UnknownName,
            position,
        });
    }
    match lookup_bytes(con.name.text.as_slice()) {
        None => Some(Fault {
            kind: FaultKind::UnknownConstraint,
            position: con.name.position,
        }),
        Some(signature) => named_fault(names, con, &signature),
    }
}

/// Whether the arguments are as many as are wanted, each of its type.
fn has_types(names: &Names, wanted: &[Argument], args: &[Arg]) -> bool
    ensures { result ≡ has_types (known names.now) wanted.now args.now }
{
    args.len() == wanted.len() && first_wrong(names, wanted, args).is_none()
}

/// The first fault of a constraint. Where the types are right, each name is declared and no entry is a set, so most constraints are
/// looked through once.
fn constraint_fault(names: &Names, con: &Con) -> Option<Fault>
    ensures { result ≡ first (constraint_faults (known names.now) con.now) }
{
    let args = con.args.as_slice();
    match lookup_bytes(con.name.text.as_slice()) {
        Some(signature) if has_types(names, signature.arguments, args) => {
            value_fault(names, con, &signature)
        }
        _ => any_fault(names, con),
    }
}

/// Puts the constraint of an item at the end.
fn state(
    alloc: Global,
    names: &Names,
    con: &Con,
    constraints: &mut Items<Constraint>,
) -> Result<(), AllocError>
    requires { IsConWithin con.now }
    ensures { OnOk result (constraints.new ≡ constraints.old ++ stated (known names.now) con.now) }
{
    if let Some(signature) = lookup_bytes(con.name.text.as_slice()) {
        constraints.push(constraint_for(alloc, names, con.args.as_slice(), signature.name)?)?;
    }
    Ok(())
}

/// The constraints of the items in order, or the first fault.
#[tactic(auto, using(crate::proofs::FirstLemmas::firsts))]
pub fn constraints_of(
    alloc: Global,
    names: &Names,
    mut cons: &[Con],
) -> Result<Items<Constraint>, Halt<Fault>>
    requires { All IsConWithin cons.now }
    ensures { Gives (flat_map (constraint_faults (known names.now)) cons.now)
        (λ found. found ≡ flat_map (stated (known names.now)) cons.now) result }
{
    let mut constraints = Items::new(alloc);
    while let [con, rest @ ..] = cons {
        if let Some(fault) = constraint_fault(names, con) {
            return Err(Halt::Fault(fault));
        }
        state(alloc, names, con, &mut constraints)?;
        cons = rest;
    }
    Ok(constraints)
}
