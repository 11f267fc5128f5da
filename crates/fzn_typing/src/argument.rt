// Where the arguments of a constraint are faulty.
ghost use Rattle.std.specs.Prelude.{◌≡◌, flat_map};
ghost use Rattle.fzn_names.specs.Known.{known};
ghost use Rattle.fzn_names.specs.Positions.{first};
ghost use Rattle.fzn_typing.specs.Arguments.{set_entries, unknown_names, entry_of, wrong_entries, wrong_parts, wrong_arguments};

use fzn_lexer::Position;
use fzn_names::{Names, first_set_in, first_unknown_in, first_wrong_in, unknown_in, wrong_in};
use fzn_registry::Argument;
use fzn_tree::{Arg, Array};

fn set_entry(names: &Names, arg: &Arg) -> Option<Position>
    ensures { result ≡ first (set_entries (known names.now) arg.now) }
{
    match arg {
        Arg::Basic(_) => None,
        Arg::Array(array) => first_set_in(names, array.entries.as_slice()),
    }
}

/// The first entry that is a set.
#[tactic(auto, using(crate::proofs::FirstLemmas::firsts))]
pub fn first_set(names: &Names, mut args: &[Arg]) -> Option<Position>
    ensures { result ≡ first (flat_map (set_entries (known names.now)) args.now) }
{
    while let [arg, rest @ ..] = args {
        if let Some(position) = set_entry(names, arg) {
            return Some(position);
        }
        args = rest;
    }
    None
}

fn unknown_name(names: &Names, arg: &Arg) -> Option<Position>
    ensures { result ≡ first (unknown_names (known names.now) arg.now) }
{
    match arg {
        Arg::Basic(basic) => unknown_in(names, basic),
        Arg::Array(array) => first_unknown_in(names, array.entries.as_slice()),
    }
}

/// The first name that is not declared.
#[tactic(auto, using(crate::proofs::FirstLemmas::firsts))]
pub fn first_unknown(names: &Names, mut args: &[Arg]) -> Option<Position>
    ensures { result ≡ first (flat_map (unknown_names (known names.now)) args.now) }
{
    while let [arg, rest @ ..] = args {
        if let Some(position) = unknown_name(names, arg) {
            return Some(position);
        }
        args = rest;
    }
    None
}

fn entry_of(wanted: Argument) -> Option<Argument>
    ensures { result ≡ entry_of wanted }
{
    match wanted {
        Argument::IntegerList => Some(Argument::Integer),
        Argument::BooleanList => Some(Argument::Boolean),
        Argument::IntegerConstantList => Some(Argument::IntegerConstant),
        Argument::BooleanConstantList => Some(Argument::BooleanConstant),
        _ => None,
    }
}

fn wrong_entry(names: &Names, wanted: Option<Argument>, array: &Array) -> Option<Position>
    ensures { result ≡ first (wrong_entries (known names.now) wanted array.now) }
{
    match wanted {
        None => Some(array.position),
        Some(entry) => first_wrong_in(names, entry, array.entries.as_slice()),
    }
}

fn wrong_value(names: &Names, wanted: Argument, arg: &Arg) -> Option<Position>
    ensures { result ≡ first (wrong_parts (known names.now) wanted arg.now) }
{
    match arg {
        Arg::Basic(basic) => wrong_in(names, wanted, basic),
        Arg::Array(array) => wrong_entry(names, entry_of(wanted), array),
    }
}

/// The first value of another type than is wanted.
#[tactic(auto, using(crate::proofs::FirstLemmas::firsts))]
pub fn first_wrong(names: &Names, mut wanted: &[Argument], mut args: &[Arg]) -> Option<Position>
    ensures { result ≡ first (wrong_arguments (known names.now) wanted.now args.now) }
{
    while let [kind, more @ ..] = wanted {
        let [arg, others @ ..] = args else {
            return None;
        };
        if let Some(position) = wrong_value(names, *kind, arg) {
            return Some(position);
        }
        wanted = more;
        args = others;
    }
    None
}
