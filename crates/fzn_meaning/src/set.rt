// Members of a set.
ghost use Rattle.std.specs.Prelude.{◌≡◌, ◌↔◌, IsTrue};
ghost use Rattle.fzn_meaning.specs.Comparisons.{IsSwitched};
ghost use Rattle.fzn_meaning.specs.Sets.{IsInSet};

use crate::comparison::is_switched;
use fzn_domain::Domain;

pub(crate) fn is_in_set(value: i64, set: &Domain, switch: Option<i64>) -> bool
    ensures { IsTrue result ↔ IsSwitched switch (IsInSet value set.now) }
{
    is_switched(switch, set.contains(value))
}
