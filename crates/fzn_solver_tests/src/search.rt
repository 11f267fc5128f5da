// Decisions and values worked out by hand, of x, which is 5, and of y.
ghost use Rattle.std.specs.Prelude.{◌≡◌, IfOk, IsTrue, length};
ghost use Rattle.fzn_domain.specs.Narrow.{AllFixed};
ghost use Rattle.fzn_meaning.specs.Solutions.{declared_sets};
ghost use Rattle.fzn_trail.specs.Levels.{NoneEmpty};

use crate::models::{model_of, trail_of};
use fzn_domain::{Lit, Memory, Op, VarId};
use fzn_list::Items;
use fzn_meaning::Model;
use fzn_search::{Choice, Search, values_of};
use fzn_strategy::{Annotation, Parameters, ValueChoice, VarChoice};
use fzn_trail::Trail;
use fzn_trail_tests::{is_filled, keep, lit};
use std::alloc::Global;
use std::slice;
use std::test::*;

fn search_of(
    alloc: Global,
    model: &Model,
    annotations: &[Annotation],
    free: bool,
) -> Result<Search, Memory>
    ensures { IfOk result (λ search. search ≡ record { vars = length model.now.vars; nodes = 0 }) }
{
    let choice = Choice {
        free,
        seed: None,
        restart_after: Some(2),
        keep: 0,
        parameters: Parameters::default(),
    };
    Search::new(alloc, model, annotations, choice)
}

/// Whether the first variable that is open is decided, by its least value.
fn is_first_decided(alloc: Global, model: &Model, trail: &Trail) -> Result<bool, Memory>
    requires declared { trail.now.declared ≡ declared_sets model.now.vars }
    requires filled { NoneEmpty trail.now.sets }
{
    let mut search = search_of(alloc, model, &[], false)?;
    let is_open = !search.is_fixed(trail);
    let decision = search.decide(trail);
    Ok(is_open && decision == Some(lit(2, Op::AtMost, -4)) && search.nodes() == 1)
}

/// The upper half of y first.
fn annotation(alloc: Global) -> Result<Annotation, Memory> {
    Ok(Annotation {
        vars: Items::from_slice(alloc, [VarId(2)].as_slice())?,
        var_choice: VarChoice::FirstFail,
        value_choice: ValueChoice::ReverseSplit,
    })
}

/// Whether the annotation decides first.
fn is_annotation_followed(
    alloc: Global,
    model: &Model,
    trail: &Trail,
    free: bool,
) -> Result<bool, Memory>
    requires declared { trail.now.declared ≡ declared_sets model.now.vars }
    requires filled { NoneEmpty trail.now.sets }
{
    let annotation = annotation(alloc)?;
    let mut search = search_of(alloc, model, slice::from_ref(&annotation), free)?;
    Ok(search.decide(trail) == Some(lit(2, Op::AtLeast, -1)))
}

/// Whether a restart is due at the second conflict, not at the first.
fn is_restart_due(search: &mut Search, named: &[Lit; 2], again: Lit) -> Result<bool, Memory>
    ensures { search.new ≡ search.old }
{
    search.bump(named.as_slice())?;
    let is_early = search.conflict();
    search.bump([again].as_slice())?;
    Ok(search.conflict() && !is_early)
}

/// Whether what conflicts named most is decided after a restart, also where it is only what the annotations leave open.
fn is_most_named_decided(
    alloc: Global,
    model: &Model,
    trail: &Trail,
    free: bool,
) -> Result<bool, Memory>
    requires declared { trail.now.declared ≡ declared_sets model.now.vars }
    requires filled { NoneEmpty trail.now.sets }
{
    let mut search = search_of(alloc, model, &[], free)?;
    let named = [lit(2, Op::AtLeast, -3), lit(2, Op::Equal, -1)];
    let most = lit(2, Op::NotEqual, -1);
    let is_due = is_restart_due(&mut search, &named, most)?;
    Ok(is_due && search.decide(trail) == Some(most))
}

/// Whether a comparison is decided as it was on the trail before it was undone.
fn is_decided_as_before(
    alloc: Global,
    model: &Model,
    before: &Trail,
    trail: &Trail,
) -> Result<bool, Memory>
    requires declared { trail.now.declared ≡ declared_sets model.now.vars }
    requires filled { NoneEmpty trail.now.sets }
{
    let mut search = search_of(alloc, model, &[], true)?;
    search.bump([lit(2, Op::NotEqual, -1)].as_slice())?;
    search.undo(before, 0);
    Ok(search.decide(trail) == Some(lit(2, Op::Equal, -1)))
}

fn are_decided(alloc: Global, model: &Model) -> Result<bool, Memory> {
    let trail = trail_of(alloc, model)?;
    let count = model.vars.len();
    if count != 2 || !is_filled(&trail, count) {
        return Ok(false);
    }
    let mut before = trail_of(alloc, model)?;
    keep(&mut before, VarId(2), Op::Equal, -1)?;
    Ok(
        is_first_decided(alloc, model, &trail)?
            && is_annotation_followed(alloc, model, &trail, false)?
            && is_annotation_followed(alloc, model, &trail, true)?
            && is_most_named_decided(alloc, model, &trail, true)?
            && is_most_named_decided(alloc, model, &trail, false)?
            && is_decided_as_before(alloc, model, &before, &trail)?,
    )
}

#[test]
fn decisions(rt: HostRuntime) -> Result<(), Fail> {
    let model = model_of(rt.alloc(), "var 5..5: x; var -4..1: y; solve satisfy;")?;
    assert!(rt; are_decided(rt.alloc(), &model)?);
    Ok(())
}

/// Whether a variable that costs something takes this value first, where no annotation is binding.
fn is_cheapest_decided(alloc: Global, model: &Model, wanted: Lit) -> Result<bool, Memory> {
    let trail = trail_of(alloc, model)?;
    if !is_filled(&trail, model.vars.len()) {
        return Ok(false);
    }
    let mut search = search_of(alloc, model, &[], true)?;
    Ok(search.decide(&trail) == Some(wanted))
}

/// Of an index the entry counts, of a part of a sum the coefficient.
#[test]
fn cheapest_values_come_first(rt: HostRuntime) -> Result<(), Fail> {
    let index = model_of(
        rt.alloc(),
        "array [1..4] of int: costs = [5, 7, 2, 9]; var 1..4: x; var 0..9: y; constraint array_int_element(x, costs, y); solve minimize y;",
    )?;
    assert!(rt; is_cheapest_decided(rt.alloc(), &index, lit(1, Op::Equal, 3))?);
    let part = model_of(
        rt.alloc(),
        "var 0..3: x; var -9..9: y; constraint int_lin_eq([2, 1], [x, y], 3); solve minimize y;",
    )?;
    assert!(rt; is_cheapest_decided(rt.alloc(), &part, lit(1, Op::AtLeast, 3))?);
    Ok(())
}

/// The first variable that is open, its greatest value first.
fn greatest_first(alloc: Global) -> Result<Annotation, Memory> {
    Ok(Annotation {
        vars: Items::from_slice(alloc, [VarId(1), VarId(2)].as_slice())?,
        var_choice: VarChoice::InputOrder,
        value_choice: ValueChoice::Max,
    })
}

/// Whether the greatest value of x is decided, which is 3.
fn is_greatest_decided(search: &mut Search, trail: &Trail) -> bool
    requires two { length trail.now.declared ≡ 2 }
    requires variables { search.old.vars ≡ 2 }
    ensures same { search.new.vars ≡ search.old.vars }
{
    if !is_filled(trail, 2) || search.nodes() > 9 {
        return false;
    }
    search.decide(trail) == Some(lit(1, Op::AtLeast, 3))
}

/// Whether a restart is due at a conflict that names y alone.
fn is_restarted_by_conflict(search: &mut Search, trail: &mut Trail) -> Result<bool, Memory>
    ensures same { search.new ≡ search.old }
    ensures declared { trail.new.declared ≡ trail.old.declared }
{
    search.bump([lit(2, Op::NotEqual, -1)].as_slice())?;
    let is_due = search.conflict();
    search.restart(trail);
    Ok(is_due)
}

/// Whether the annotation decides, and a restart is due then.
fn is_followed_to_a_restart(search: &mut Search, trail: &mut Trail) -> Result<bool, Memory>
    requires two { length trail.old.declared ≡ 2 }
    requires variables { search.old.vars ≡ 2 }
    ensures two { length trail.new.declared ≡ 2 }
    ensures variables { search.new.vars ≡ 2 }
{
    if !is_greatest_decided(search, trail) {
        return Ok(false);
    }
    is_restarted_by_conflict(search, trail)
}

/// Whether the annotation decides before and after two restarts.
fn is_followed_after_restarts(alloc: Global, model: &Model) -> Result<bool, Memory> {
    if model.vars.len() != 2 {
        return Ok(false);
    }
    let mut trail = trail_of(alloc, model)?;
    let annotation = greatest_first(alloc)?;
    let choice = Choice {
        free: false,
        seed: None,
        restart_after: Some(1),
        keep: 0,
        parameters: Parameters::default(),
    };
    let annotations = slice::from_ref(&annotation);
    let mut search = Search::new(alloc, model, annotations, choice)?;
    Ok(
        is_followed_to_a_restart(&mut search, &mut trail)?
            && is_followed_to_a_restart(&mut search, &mut trail)?
            && is_greatest_decided(&mut search, &trail),
    )
}

#[test]
fn restarts_keep_to_the_annotations(rt: HostRuntime) -> Result<(), Fail> {
    let model = model_of(rt.alloc(), "var 0..3: x; var -4..1: y; solve satisfy;")?;
    assert!(rt; is_followed_after_restarts(rt.alloc(), &model)?);
    Ok(())
}

/// Whether nothing is left to decide.
fn is_fixed(search: &mut Search, trail: &Trail) -> bool
    requires first { search.old ≡ record { vars = length trail.now.declared; nodes = 0 } }
    requires filled { NoneEmpty trail.now.sets }
    ensures { IsTrue result → AllFixed trail.now.sets }
{
    let is_fixed = search.is_fixed(trail);
    let decision = search.decide(trail);
    is_fixed && decision.is_none() && search.nodes() == 0
}

fn are_values(alloc: Global, trail: &Trail) -> Result<bool, Memory>
    requires two { length trail.now.declared ≡ 2 }
    requires fixed { AllFixed trail.now.sets }
{
    let values = values_of(alloc, trail, 2)?;
    Ok(values.as_slice() == [5, 7].as_slice())
}

/// Whether a level is dropped at a restart.
fn is_restarted(search: &mut Search, trail: &mut Trail) -> Result<bool, Memory> {
    trail.push_level()?;
    let is_above = trail.level() == 1;
    search.restart(trail);
    Ok(is_above && trail.level() == 0)
}

fn is_told(alloc: Global, model: &Model, trail: &mut Trail) -> Result<bool, Memory>
    requires two { length trail.old.declared ≡ 2 }
    requires variables { length model.now.vars ≡ 2 }
    requires filled { NoneEmpty trail.old.sets }
{
    let mut search = search_of(alloc, model, &[], false)?;
    Ok(
        is_fixed(&mut search, trail)
            && are_values(alloc, trail)?
            && is_restarted(&mut search, trail)?,
    )
}

fn is_fixed_and_restarted(alloc: Global, model: &Model) -> Result<bool, Memory> {
    let mut trail = trail_of(alloc, model)?;
    Ok(model.vars.len() == 2 && is_filled(&trail, 2) && is_told(alloc, model, &mut trail)?)
}

#[test]
fn fixed_variables_have_values(rt: HostRuntime) -> Result<(), Fail> {
    let model = model_of(rt.alloc(), "var 5..5: x; var 7..7: y; solve satisfy;")?;
    assert!(rt; is_fixed_and_restarted(rt.alloc(), &model)?);
    Ok(())
}
