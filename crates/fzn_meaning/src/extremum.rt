// The least and the greatest entry of a list.
ghost use Rattle.std.specs.Prelude.{◌≡◌, ◌↔◌, IsTrue};
ghost use Rattle.std.specs.List.{All};
ghost use Rattle.fzn_meaning.specs.Extrema.{Bounds, IsExtremum};

use fzn_values::Entries;

/// Which entry of a list is meant.
#[derive(Clone, Copy, Debug, PartialEq, Eq)]
pub enum Extreme {
    /// The least.
    Least,
    /// The greatest.
    Greatest,
}

pub(crate) fn is_extremum(extreme: Extreme, entries: &Entries, value: i64) -> bool
    ensures { IsTrue result ↔ IsExtremum extreme entries.now value }
{
    entries.contains(value) && bounds_all(extreme, value, entries)
}

fn bounds_all(extreme: Extreme, value: i64, entries: &Entries) -> bool
    ensures { IsTrue result ↔ All (Bounds extreme value) entries.now }
{
    for place in 0..entries.len() {
        if !bounds(extreme, value, entries.get(place)) {
            return false;
        }
    }
    true
}

fn bounds(extreme: Extreme, value: i64, entry: i64) -> bool
    ensures { IsTrue result ↔ Bounds extreme value entry }
{
    match extreme {
        Extreme::Least => value <= entry,
        Extreme::Greatest => entry <= value,
    }
}
