// Chains of clauses that refute.
ghost use Rattle.std.specs.Prelude.{◌≡◌, ◌↔◌, IsTrue, IfOk, IfSome, length};
ghost use Rattle.std.specs.List.{All};
ghost use Rattle.fzn_domain.specs.Narrow.{IsClauseOver, chain_outcome};
ghost use Rattle.fzn_cert.specs.Past.{IsClauseHeld, clauses_held};
ghost use Rattle.fzn_checker.specs.Judged.{chain_fault};

use crate::history::History;
use fzn_cert::Refusal;
use fzn_domain::Memory;
use fzn_sets::{Link, Sets};

/// What is wrong with the chain of these clauses, if anything.
pub fn follow(history: &History, sets: &mut Sets, ids: &[u64]) -> Result<Option<Refusal>, Memory>
    requires held { All (IsClauseHeld history.now) ids.now }
    requires over { All (λ held. IfSome held (IsClauseOver (length sets.old.present))) history.now.clauses }
    ensures fault { IfOk result (λ fault. fault ≡ chain_fault (chain_outcome sets.old.present (clauses_held history.now ids.now))) }
    ensures declared { sets.new.declared ≡ sets.old.declared }
{
    for id in ids {
        let Some(clause) = history.clause(*id) else {
            unreachable!()
        };
        match fzn_sets::follow(sets, clause.as_slice())? {
            Link::Refuted => return Ok(None),
            Link::Narrowed => {}
            Link::Open => return Ok(Some(Refusal::NotUnit)),
        }
    }
    Ok(Some(Refusal::NoConflict))
}

pub fn are_held(history: &History, ids: &[u64]) -> bool
    ensures { IsTrue result ↔ All (IsClauseHeld history.now) ids.now }
{
    for id in ids {
        if !history.is_held(*id) {
            return false;
        }
    }
    true
}
