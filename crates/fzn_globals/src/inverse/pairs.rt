// What follows from two entries of two lists that lead back from one another's places: by the rule `pair`.
ghost use Rattle.std.specs.Prelude.{◌≡◌, [], IsTrue, IfOk, IfSome, IfNone, OnOk, length};
ghost use Rattle.fzn_domain.specs.Limits.{IsInLimits};
ghost use Rattle.fzn_values.specs.Term.{IsTerm};
ghost use Rattle.fzn_sets.specs.Terms.{MayBe, term_at};
ghost use Rattle.fzn_propagator.specs.Clause.{IsForcing};
ghost use Rattle.fzn_globals.specs.Ways.{IsMissed, pair_rule};
ghost use Rattle.fzn_globals.specs.InversePasses.{IsJustifiedByInverse, AreFoundOfInverse, HasEntry, MayLead, MayLeadBack, AreEntries, LeadsBackAt};

use crate::inverse::pass::{Pass, Side};
use fzn_domain::{Lit, Memory, Op};
use fzn_list::Items;
use fzn_propagator::Findings;
use fzn_rules::Rule;
use fzn_sets::term_at;
use fzn_terms::{
    Claim, explain, force, force_possible, has_other, is_fixed, least_of, may_be, next_value,
};
use fzn_values::Term;

/// Adds to a clause that is false, or forces a literal, that the term is this number, which it cannot be on the trail.
fn push_missing(
    pass: &Pass,
    term: Term,
    number: &i64,
    clause: &mut Items<Lit>,
) -> Result<(), Memory>
    requires term { IsTerm (length pass.now.trail.now.declared) term }
    requires limits { IsInLimits number.now }
    requires missing { MayBe pass.now.trail.now.sets term number.now → ⊥ }
    requires forcing { IsForcing pass.now.trail.now clause.old }
    ensures { OnOk result (IsMissed pass.now.trail.now term number.now clause.old clause.new) }
{
    if let Term::Variable(var) = term {
        clause.push(Lit {
            var,
            op: Op::Equal,
            value: *number,
        })?;
    }
    Ok(())
}

/// The clause that the entry at i is not j, or the other list's entry at j is i, both counted from 1. Nothing where it is none of the
/// trail: the other list's entry may be i then.
fn explain_pair(pass: &Pass, i: &i64, j: &i64) -> Result<Option<Items<Lit>>, Memory>
    requires first { HasEntry pass.now i.now }
    requires second { HasEntry pass.now j.now }
    requires may { MayLead pass.now i.now j.now }
    ensures found { IfOk result (λ found. IfSome found (IsJustifiedByInverse pass.now (pair_rule pass.now.side i.now j.now))) }
    ensures none { IfOk result (λ found. IfNone found (MayLeadBack pass.now i.now j.now)) }
{
    let entry = term_at(pass.there, i);
    let target = term_at(pass.back, j);
    if !may_be(pass.trail, target, i) {
        let mut clause = Items::with_capacity(pass.alloc, 2)?;
        force_possible(pass.trail, Claim::equal(entry, *j), &mut clause)?;
        push_missing(pass, target, i, &mut clause)?;
        return Ok(Some(clause));
    }
    if has_other(pass.trail, entry, j) || !has_other(pass.trail, target, i) {
        return Ok(None);
    }
    let mut clause = Items::with_capacity(pass.alloc, 2)?;
    explain(pass.trail, Claim::equal(entry, *j), &mut clause)?;
    if force(pass.trail, Claim::other_than(target, *i), &mut clause)? {
        Ok(Some(clause))
    } else {
        Ok(None)
    }
}

/// The rule of the entry of this list at i and the other's at j.
fn pair_rule(side: Side, i: &i64, j: &i64) -> Rule
    ensures { result ≡ pair_rule side i.now j.now }
{
    match side {
        Side::Forward => Rule::Pair(*i, *j),
        Side::Backward => Rule::Pair(*j, *i),
    }
}

/// Whether nothing follows of an entry at i that may be j and of the other list's entry at j: that one is i, or may be while the first has
/// other values (it is `open`).
fn is_silent(pass: &Pass, i: &i64, j: &i64, open: bool) -> bool
    requires { HasEntry pass.now j.now }
    ensures { IsTrue result → MayLeadBack pass.now i.now j.now }
{
    let target = term_at(pass.back, j);
    if !has_other(pass.trail, target, i) {
        return true;
    }
    open && may_be(pass.trail, target, i)
}

/// Finds what follows from the entry at i with its value j. Whether the entry has other values (it is `open`) says which pairs are passed
/// over early.
pub(crate) fn find_pair(
    pass: &Pass,
    i: &i64,
    j: &i64,
    open: bool,
    found: &mut Findings,
) -> Result<(), Memory>
    requires first { HasEntry pass.now i.now }
    requires second { HasEntry pass.now j.now }
    requires may { MayLead pass.now i.now j.now }
    requires before { AreFoundOfInverse pass.now found.old }
    ensures found { AreFoundOfInverse pass.now found.new }
    ensures kept { found.new ≡ [] → found.old ≡ [] }
    ensures none { OnOk result (found.new ≡ [] → MayLeadBack pass.now i.now j.now) }
{
    if is_silent(pass, i, j, open) {
        return Ok(());
    }
    let Some(clause) = explain_pair(pass, i, j)? else {
        return Ok(());
    };
    found.hand_over(pass.number, pair_rule(pass.side, i, j), Some(clause))?;
    Ok(())
}

/// Finds what follows from the entry at i, counted from 1, with each of its values, which are indices.
pub(crate) fn find_pairs(pass: &Pass, i: &i64, found: &mut Findings) -> Result<(), Memory>
    requires first { HasEntry pass.now i.now }
    requires indices { AreEntries pass.now (term_at pass.now.there.now i.now) }
    requires before { AreFoundOfInverse pass.now found.old }
    ensures found { AreFoundOfInverse pass.now found.new }
    ensures kept { found.new ≡ [] → found.old ≡ [] }
    ensures none { OnOk result (found.new ≡ [] → LeadsBackAt pass.now i.now) }
{
    let entry = term_at(pass.there, i);
    let open = !is_fixed(pass.trail, entry);
    let mut value = least_of(pass.trail, entry);
    loop {
        find_pair(pass, i, &value, open, found)?;
        match next_value(pass.trail, entry, &value) {
            Some(next) => value = next,
            None => return Ok(()),
        }
    }
}
