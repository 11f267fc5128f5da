// Whether tasks keep the capacity where each of their terms has its least value.
ghost use Rattle.std.specs.Prelude.{◌≡◌, ◌↔◌, [], length, IsTrue, IfOk};
ghost use Rattle.std.specs.List.{All};
ghost use Rattle.fzn_meaning.specs.Meaning.{AreTerms, Meets};
ghost use Rattle.fzn_values.specs.Term.{IsTerm};
ghost use Rattle.fzn_cumulative.specs.Kept.{HasNoneBelow, least_terms, least_cumulative};
ghost use Rattle.fzn_cumulative.specs.Passes.{tasks_of};

use crate::pass::Pass;
use fzn_domain::Memory;
use fzn_list::{Items, Shared};
use fzn_meaning::{Constraint, holds};
use fzn_terms::least_of;
use fzn_values::Term;

/// Whether the tasks keep the capacity where each of their terms has its least value.
pub(crate) fn is_kept_at_least(pass: &Pass) -> Result<bool, Memory>
    requires { HasNoneBelow pass.now.trail.now.sets (tasks_of pass.now) }
    ensures { IfOk result (λ kept. IsTrue kept ↔ Meets (least_cumulative pass.now.trail.now.sets (tasks_of pass.now)) []) }
{
    let _entries = pass.trail.len(); // Each present set lies within its declared one.
    let starts = least_terms(pass, pass.starts)?;
    let durations = least_terms(pass, pass.durations)?;
    let uses = least_terms(pass, pass.uses)?;
    let constraint = Constraint::Cumulative {
        starts: Shared::new(pass.alloc, starts)?,
        durations: Shared::new(pass.alloc, durations)?,
        uses: Shared::new(pass.alloc, uses)?,
        capacity: Term::Constant(least_of(pass.trail, pass.capacity)),
    };
    let values: [i64; 0] = [];
    Ok(holds(&constraint, &values))
}

/// The least value of each term.
fn least_terms(pass: &Pass, terms: &[Term]) -> Result<Items<Term>, Memory>
    requires { AreTerms (length pass.now.trail.now.declared) terms.now }
    ensures same { IfOk result (λ list. list ≡ least_terms pass.now.trail.now.sets terms.now) }
    ensures limits { IfOk result (λ list. All (IsTerm 0) list) }
{
    let mut list = Items::new(pass.alloc);
    for k in 0..terms.len() {
        list.push(Term::Constant(least_of(pass.trail, terms[k])))?;
    }
    Ok(list)
}
