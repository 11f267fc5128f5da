// Whether a clause forces anything on a trail.
ghost use Rattle.std.specs.Prelude.{length, IsTrue};
ghost use Rattle.std.specs.List.{All};
ghost use Rattle.fzn_domain.specs.Narrow.{IsClauseOver};
ghost use Rattle.fzn_propagator.specs.Clause.{IsWritable, IsForcing};

use fzn_domain::Lit;
use fzn_sets::Possible;
use fzn_trail::Trail;

/// Whether the clause is false on the trail, or has one possible literal, which is not true yet.
pub fn is_forcing(trail: &Trail, clause: &[Lit]) -> bool
    requires over { IsClauseOver (length trail.now.declared) clause.now }
    requires writable { All IsWritable clause.now }
    ensures { IsTrue result → IsForcing trail.now clause.now }
{
    match trail.sets().possible(clause) {
        Possible::Nothing => true,
        Possible::One(lit) => !trail.domain(lit.var).is_false(lit.negated()),
        Possible::Several => false,
    }
}
