// The entry at an index.
ghost use Rattle.std.specs.Prelude.{◌≡◌, ◌↔◌, IsTrue};
ghost use Rattle.fzn_meaning.specs.Elements.{IsElement};

use fzn_values::{Entries, is_index};

pub(crate) fn is_element(index: i64, entries: &Entries, value: i64) -> bool
    ensures { IsTrue result ↔ IsElement index entries.now value }
{
    is_index(entries.len(), index) && entries.at(index) == value
}
