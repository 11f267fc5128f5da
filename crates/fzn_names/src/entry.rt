// Where the entries of an array are faulty.
ghost use Rattle.std.specs.Prelude.{◌≡◌, flat_map};
ghost use Rattle.fzn_names.specs.Known.{known};
ghost use Rattle.fzn_names.specs.Positions.{first};
ghost use Rattle.fzn_names.specs.Types.{sets_in, unknown_in, wrong_in};

use crate::names::Names;
use crate::value::{set_in, unknown_in, wrong_in};
use fzn_lexer::Position;
use fzn_registry::Argument;
use fzn_tree::Basic;

/// The position of the first entry that is a set.
#[tactic(auto, using(crate::proofs::FirstLemmas::firsts))]
pub fn first_set_in(names: &Names, mut entries: &[Basic]) -> Option<Position>
    ensures { result ≡ first (flat_map (sets_in (known names.now)) entries.now) }
{
    while let [basic, rest @ ..] = entries {
        if let Some(position) = set_in(names, basic) {
            return Some(position);
        }
        entries = rest;
    }
    None
}

/// The position of the first entry that is a name that is not declared.
#[tactic(auto, using(crate::proofs::FirstLemmas::firsts))]
pub fn first_unknown_in(names: &Names, mut entries: &[Basic]) -> Option<Position>
    ensures { result ≡ first (flat_map (unknown_in (known names.now)) entries.now) }
{
    while let [basic, rest @ ..] = entries {
        if let Some(position) = unknown_in(names, basic) {
            return Some(position);
        }
        entries = rest;
    }
    None
}

/// The position of the first entry of another type than is wanted.
#[tactic(auto, using(crate::proofs::FirstLemmas::firsts))]
pub fn first_wrong_in(names: &Names, wanted: Argument, mut entries: &[Basic]) -> Option<Position>
    ensures { result ≡ first (flat_map (wrong_in (known names.now) wanted) entries.now) }
{
    while let [basic, rest @ ..] = entries {
        if let Some(position) = wrong_in(names, wanted, basic) {
            return Some(position);
        }
        entries = rest;
    }
    None
}
