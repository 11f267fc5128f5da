// What was narrowed since the last level began. A level begins only where no propagator finds anything: what came before has been told.
ghost use Rattle.std.specs.Prelude.{length};
ghost use Rattle.fzn_values.specs.Term.{IsTerm};

use fzn_trail::Trail;
use fzn_values::Term;

/// How many entries of the trail stood when its last level began.
pub(crate) fn told(trail: &Trail) -> usize {
    match trail.level().checked_sub(1) {
        Some(before) => trail.count_at(before),
        None => 0,
    }
}

/// Whether the term was narrowed behind so many entries; where there are none, each was.
pub(crate) fn is_new(trail: &Trail, term: Term, told: usize) -> bool
    requires { IsTerm (length trail.now.declared) term }
{
    let last = match term {
        Term::Constant(_) => None,
        Term::Variable(var) => trail.last_of(var),
    };
    match last {
        Some(at) => told <= at,
        None => told == 0,
    }
}
