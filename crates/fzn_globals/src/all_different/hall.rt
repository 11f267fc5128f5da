// What follows from places whose sets lie within too few values: by the rule `hall`.
ghost use Rattle.std.specs.Prelude.{◌≡◌, ◌<◌, ◌≤ℤ◌, pos, IfOk, OnOk, length};
ghost use Rattle.std.specs.List.{All};
ghost use Rattle.fzn_propagator.specs.Clause.{IsFalseClause};
ghost use Rattle.fzn_globals.specs.Apart.{numbers};
ghost use Rattle.fzn_globals.specs.DifferentPasses.{IsJustifiedByHall, AreFoundOfDifferent, count_within, SaysWithin};

use crate::all_different::pass::Pass;
use crate::all_different::span::{Span, explain_within, force_within, lies_within};
use fzn_domain::{Lit, Memory};
use fzn_intervals::{Ends, Interval, moved_by, telling_interval};
use fzn_list::Items;
use fzn_propagator::Findings;
use fzn_rules::Rule;
use fzn_terms::{greatest_of, least_of};

/// Finds what follows from the first interval that says something, where there is one: about n log n, and the square of few places. Where
/// none is full that is mostly told at once.
pub(crate) fn find_by_interval(pass: &Pass, found: &mut Findings) -> Result<(), Memory>
    requires { AreFoundOfDifferent pass.now found.old }
    ensures { AreFoundOfDifferent pass.now found.new }
{
    let mut ends = ends_of(pass)?;
    let Some(interval) = telling_interval(pass.alloc, &mut ends)? else {
        return Ok(());
    };
    find_in(pass, ends.as_slice(), &interval, found)
}

/// The ends of each place.
fn ends_of(pass: &Pass) -> Result<Vec<Ends>, Memory> {
    let mut ends = Vec::with_capacity(pass.alloc, pass.places.len())?;
    for place in 0..pass.places.len() {
        ends.push(Ends {
            place,
            low: least_of(pass.trail, pass.places[place]),
            high: greatest_of(pass.trail, pass.places[place]),
        })?;
    }
    Ok(ends)
}

/// Finds what follows from an interval.
fn find_in(
    pass: &Pass,
    ends: &[Ends],
    interval: &Interval,
    found: &mut Findings,
) -> Result<(), Memory>
    requires { AreFoundOfDifferent pass.now found.old }
    ensures { AreFoundOfDifferent pass.now found.new }
{
    let Some(span) = Span::of(interval) else {
        return Ok(());
    };
    let moved = moved_by(pass.alloc, ends, interval)?;
    let mut clauses = explain_hall(pass, &span, moved.as_slice())?;
    while let Some(clause) = clauses.pop() {
        found.hand_over(pass.number, Rule::Hall(span.low, span.high), Some(clause))?;
    }
    Ok(())
}

/// The clause that one of the places which lie within the interval does not, where they are more than its numbers; where they are just as
/// many, for each of the moved places the clause that it lies outside, or one of them does not lie within. There is none where they are
/// fewer.
fn explain_hall(pass: &Pass, span: &Span, moved: &[usize]) -> Result<Vec<Items<Lit>>, Memory>
    ensures { IfOk result (λ clauses. All (IsJustifiedByHall pass.now span.now.low span.now.high) clauses.items) }
{
    let mut clauses = Vec::new(pass.alloc);
    let mut within = Items::new(pass.alloc);
    let count = explain_places(pass, span, &mut within)?;
    let room = span.numbers();
    if room < count {
        clauses.push(within)?;
        return Ok(clauses);
    }
    if count < room {
        return Ok(clauses);
    }
    for k in 0..moved.len() {
        let place = moved[k];
        if place < pass.places.len() {
            push_outside(pass, span, place, &within, &mut clauses)?;
        }
    }
    Ok(clauses)
}

/// Adds to a false clause what it takes to say that the places which lie within the interval do so, and says how many these are.
fn explain_places(pass: &Pass, span: &Span, clause: &mut Items<Lit>) -> Result<usize, Memory>
    requires still { IsFalseClause pass.now.trail.now clause.old }
    ensures count { IfOk result (λ count. count ≡ count_within pass.now span.now) }
    ensures still { IfOk result (λ _. IsFalseClause pass.now.trail.now clause.new) }
    ensures within { IfOk result (λ _. SaysWithin pass.now span.now clause.new) }
{
    let mut count = 0;
    for k in 0..pass.places.len() {
        let term = pass.places[k];
        if lies_within(pass, term, span) {
            explain_within(pass, term, span, clause)?;
            count += 1;
        }
    }
    Ok(count)
}

/// The clause that the place lies outside, behind one that says that the places which lie within the interval do so, goes behind the others.
fn push_outside(
    pass: &Pass,
    span: &Span,
    place: usize,
    within: &Items<Lit>,
    clauses: &mut Vec<Items<Lit>>,
) -> Result<(), Memory>
    requires place { place < length pass.now.places.now }
    requires still { IsFalseClause pass.now.trail.now within.now }
    requires within { SaysWithin pass.now span.now within.now }
    requires many { numbers span.now.low span.now.high ≤ℤ pos (count_within pass.now span.now) }
    requires before { All (IsJustifiedByHall pass.now span.now.low span.now.high) clauses.old.items }
    ensures { OnOk result (All (IsJustifiedByHall pass.now span.now.low span.now.high) clauses.new.items) }
{
    let mut clause = Items::from_slice(pass.alloc, within.as_slice())?;
    if !force_within(pass, pass.places[place], span, &mut clause)? {
        return Ok(());
    }
    clauses.push(clause)?;
    Ok(())
}
