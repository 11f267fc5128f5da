// Comparisons of two terms, and switches.
ghost use Rattle.std.specs.Prelude.{◌≡◌, ◌↔◌, IsTrue, IfSome, length};
ghost use Rattle.fzn_values.specs.Term.{IsTerm};
ghost use Rattle.fzn_meaning.specs.Meaning.{switch_value, IsSwitch};
ghost use Rattle.fzn_meaning.specs.Comparisons.{IsRelated, IsSwitched};

use crate::relation::Relation;
use fzn_values::Term;

fn is_related(relation: Relation, left: i64, right: i64) -> bool
    ensures { IsTrue result ↔ IsRelated relation left right }
{
    match relation {
        Relation::Equal => left == right,
        Relation::NotEqual => left != right,
        Relation::AtMost => left <= right,
        Relation::Below => left < right,
    }
}

/// Whether a plain form holds, or whether its switch says so.
pub(crate) fn is_switched(switch: Option<i64>, plain: bool) -> bool
    ensures { IsTrue result ↔ IsSwitched switch (IsTrue plain) }
{
    match switch {
        None => plain,
        Some(value) => (value == 1) == plain,
    }
}

pub(crate) fn switch_value(switch: Option<Term>, values: &[i64]) -> Option<i64>
    requires { IsSwitch (length values.now) switch }
    ensures { result ≡ switch_value values.now switch }
{
    let term = switch?;
    Some(term.value(values))
}

pub(crate) fn is_comparison(relation: Relation, left: i64, right: i64, switch: Option<i64>) -> bool
    ensures { IsTrue result ↔ IsSwitched switch (IsRelated relation left right) }
{
    is_switched(switch, is_related(relation, left, right))
}
