// Each rule on each choice of small sets, for each of the 51 names: where values of the sets meet the constraint, no rule says yes, and
// where none do, `enum` says so of a builtin, and some rule says so of a global at least once.
ghost use Rattle.std.specs.Prelude.{◌≡◌, false, length};
ghost use Rattle.fzn_domain.specs.Narrow.{is_some_empty};
ghost use Rattle.fzn_meaning.specs.Meaning.{IsWellFormedConstraint};
ghost use Rattle.fzn_meaning.specs.WellFormed.{IsWellFormed};

use crate::kinds::{ROWS, advance, all_hold, first_values, model_of};
use fzn_domain::{Lit, Op, VarId};
use fzn_list::Items;
use fzn_meaning::{Constraint, Model};
use fzn_rules::{Rule, refutes};
use fzn_sets::Sets;
use std::alloc::{AllocError, Global};
use std::test::*;

/// The rules with numbers as hints, each from -1 to 4.
fn push_hinted(rules: &mut Vec<Rule>) -> Result<(), AllocError> {
    for first in -1..5i64 {
        rules.push(Rule::Load(first))?;
        for second in -1..5i64 {
            rules.push(Rule::Hall(first, second))?;
            rules.push(Rule::Energy(first, second))?;
            rules.push(Rule::Pair(first, second))?;
        }
    }
    Ok(())
}

/// A cut of those of the places 1 to 3 whose bits are set.
fn cut_of(alloc: Global, bits: u8) -> Result<Rule, AllocError> {
    let mut items = Items::new(alloc);
    for (bit, place) in [(1, 1i64), (2, 2), (4, 3)] {
        if bits & bit != 0 {
            items.push(place)?;
        }
    }
    Ok(Rule::Cut(items))
}

/// Cuts of up to three places, of none, and of two in no order.
fn push_cuts(alloc: Global, rules: &mut Vec<Rule>) -> Result<(), AllocError> {
    for bits in 0..8u8 {
        rules.push(cut_of(alloc, bits)?)?;
    }
    rules.push(Rule::Cut(Items::from_slice(alloc, [2, 1].as_slice())?))?;
    Ok(())
}

/// Each rule, with its hints.
fn rules_with_hints(alloc: Global) -> Result<Vec<Rule>, AllocError> {
    let mut rules = Vec::new(alloc);
    for rule in [Rule::Lin, Rule::Rows, Rule::Box, Rule::Fixed, Rule::Enum] {
        rules.push(rule)?;
    }
    push_hinted(&mut rules)?;
    push_cuts(alloc, &mut rules)?;
    Ok(rules)
}

/// The values, one for each variable, that meet the constraints.
fn meeting(alloc: Global, model: &Model) -> Result<Vec<Vec<i64>>, AllocError>
    requires { IsWellFormed model.now }
{
    let mut found = Vec::new(alloc);
    let mut values = first_values(alloc, model)?;
    for _ in 0..1000 {
        if all_hold(model, &values) {
            found.push(values.clone()?)?;
        }
        if !advance(model, &mut values) {
            break;
        }
    }
    Ok(found)
}

/// A literal for each value of each variable, which takes it out.
fn exclusions(alloc: Global, model: &Model) -> Result<Vec<Lit>, AllocError> {
    let mut lits = Vec::new(alloc);
    for (place, var) in model.vars.as_slice().iter().enumerate() {
        let mut last = i64::MIN;
        for _ in 0..var.domain.len() {
            if let Some(value) = var.domain.above(last) {
                lits.push(Lit {
                    var: VarId(place + 1),
                    op: Op::NotEqual,
                    value,
                })?;
                last = value;
            }
        }
    }
    Ok(lits)
}

/// The declared sets.
pub(crate) fn declared(alloc: Global, model: &Model) -> Result<Sets, AllocError> {
    let mut domains = Vec::new(alloc);
    for var in model.vars.as_slice() {
        domains.push(var.domain.copy()?)?;
    }
    Sets::new(alloc, domains)
}

/// Takes out the values whose bit is 1 in the number, and says whether it has no bit beyond them.
fn narrow(sets: &mut Sets, exclusions: &[Lit], number: usize) -> Result<bool, AllocError> {
    sets.restore();
    let mut rest = number;
    for lit in exclusions {
        if rest % 2 == 1 && 0 < lit.var.0 && lit.var.0 <= sets.len() {
            sets.narrow(*lit)?;
        }
        rest /= 2;
    }
    Ok(rest == 0)
}

/// Whether each of the values is in its variable's set.
fn is_among(sets: &Sets, values: &[i64]) -> bool {
    for (place, value) in values.iter().enumerate() {
        if place >= sets.len() || !sets.domain(VarId(place + 1)).contains(*value) {
            return false;
        }
    }
    true
}

/// Whether some rule is met.
fn is_refuted(constraint: &Constraint, sets: &Sets, rules: &[Rule]) -> bool
    requires constraint { IsWellFormedConstraint (length sets.now.present) constraint.now }
    requires nonempty { is_some_empty sets.now.present ≡ false }
{
    for rule in rules {
        if refutes(constraint, sets, rule) {
            return true;
        }
    }
    false
}

/// How a constraint fares on one choice of sets.
#[derive(Clone, Copy, Debug, PartialEq)]
enum Judgement {
    /// Values of the sets meet it, and no rule is met; or no values do, and no rule is met.
    Kept,
    /// No values of the sets meet it, and some rule is met.
    Refuted,
    /// A rule is met though values of the sets meet it, or `enum` is not met though it is to be.
    Wrong,
}

fn judged(
    constraint: &Constraint,
    sets: &Sets,
    rules: &[Rule],
    has_values: bool,
    is_builtin: bool,
) -> Judgement
    requires constraint { IsWellFormedConstraint (length sets.now.present) constraint.now }
    requires nonempty { is_some_empty sets.now.present ≡ false }
{
    let by_enum = refutes(constraint, sets, &Rule::Enum);
    match is_refuted(constraint, sets, rules) {
        true if has_values => Judgement::Wrong,
        false if has_values => Judgement::Kept,
        _ if is_builtin && !by_enum => Judgement::Wrong,
        true => Judgement::Refuted,
        false => Judgement::Kept,
    }
}

/// Whether the rules are right on each choice of sets, and one is met on some choice.
fn are_right(
    model: &Model,
    rules: &[Rule],
    is_builtin: bool,
    meeting: &[Vec<i64>],
    exclusions: &[Lit],
    sets: &mut Sets,
) -> Result<bool, AllocError>
    requires { IsWellFormed model.now }
{
    let Some(constraint) = model.constraints.as_slice().first() else {
        return Ok(false);
    };
    let mut refuted = false;
    for number in 0..1_000_000 {
        if !narrow(sets, exclusions, number)? {
            return Ok(refuted);
        }
        if sets.len() != model.vars.len() || sets.has_empty() {
            continue;
        }
        let has_values = meeting.iter().any(|values| is_among(sets, values));
        match judged(constraint, sets, rules, has_values, is_builtin) {
            Judgement::Kept => {}
            Judgement::Refuted => refuted = true,
            Judgement::Wrong => return Ok(false),
        }
    }
    Ok(false)
}

/// Whether the rules are right on the constraint of a row.
fn is_right(alloc: Global, rules: &[Rule], row: &str) -> Result<bool, Fail> {
    let file = format!(in alloc; "{row} solve satisfy;")?;
    let model = model_of(alloc, file.as_str())?;
    let meeting = meeting(alloc, &model)?;
    let exclusions = exclusions(alloc, &model)?;
    let mut sets = declared(alloc, &model)?;
    let is_builtin = !row.contains("fzn_");
    Ok(are_right(&model, rules, is_builtin, &meeting, &exclusions, &mut sets)?)
}

#[test]
fn rules_on_all_sets(rt: HostRuntime) -> Result<(), Fail> {
    let rules = rules_with_hints(rt.alloc())?;
    assert!(rt; ROWS.trim().lines().count() == 60);
    for row in ROWS.trim().lines() {
        assert!(rt; is_right(rt.alloc(), &rules, row)?, "{row}");
    }
    Ok(())
}
