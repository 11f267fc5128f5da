// The clause of the first unique implication point (Zhang, Madigan, Moskewicz, Malik, Efficient Conflict Driven Learning, 2001).
// Nothing is promised of it: what is learned is tested.
use crate::marks::Marks;
use crate::outcome::Outcome;
use fzn_domain::{Clause, Lit, Memory};
use fzn_explanation::{Implications, canonical, opposite};
use fzn_learned::Learned;
use fzn_list::Items;
use fzn_trail::{Antecedent, ClauseId, Reason};
use std::alloc::Global;

/// A clause with the antecedents that it follows from, if it does.
pub fn first_uip(
    alloc: Global,
    graph: &Implications,
    marks: &mut Marks,
    conflict: Antecedent,
) -> Result<Learned, Memory> {
    marks.begin(graph)?;
    marks.explain(graph, conflict)?;
    if marks.find_level(graph)? > 0 {
        narrow_down(graph, marks)?;
        minimise(graph, marks)?;
    }
    replace_level_0(graph, marks)?;
    marks.settle()?;
    let learned = told(alloc, graph, marks, conflict)?;
    marks.clear();
    Ok(learned)
}

/// The clause that denies the kept entries, with all that is told of it.
fn told(
    alloc: Global,
    graph: &Implications,
    marks: &Marks,
    conflict: Antecedent,
) -> Result<Learned, Memory> {
    let places = marks.outcome.denied.as_slice();
    Ok(Learned {
        clause: denied(alloc, graph, marks, places)?,
        antecedents: antecedents_of(alloc, graph, &marks.outcome, conflict)?,
        level: second_level(graph, places),
        block_distance: block_distance_of(graph, places),
        marked: marked_literals(alloc, marks)?,
    })
}

/// Replaces the newest marked entries of the conflict's level until one is left, which is kept.
fn narrow_down(graph: &Implications, marks: &mut Marks) -> Result<(), Memory> {
    for _ in 0..graph.trail.len() {
        let Some(place) = marks.open.take_last() else {
            return Ok(());
        };
        let Some(entry) = graph.entry(place) else {
            return Ok(());
        };
        if entry.reason == Reason::Decision || marks.open.is_empty() {
            marks.outcome.kept.insert(place);
            return Ok(());
        }
        marks.outcome.replaced.insert(place);
        marks.replace(graph, place, entry)?;
    }
    Ok(())
}

/// Sorts the marked entries between level 0 and that of the conflict: those that follow from others are replaced, the others kept.
fn minimise(graph: &Implications, marks: &mut Marks) -> Result<(), Memory> {
    for i in 0..marks.lower.len() {
        if let Some(place) = marks.lower.get(i).copied()
            && let Some(entry) = graph.entry(place)
        {
            if entry.reason != Reason::Decision && marks.is_redundant(graph, place, entry)? {
                marks.outcome.replaced.insert(place);
            } else {
                marks.outcome.kept.insert(place);
            }
        }
    }
    Ok(())
}

/// Replaces all marked entries of level 0: by clauses that stand for them, or by their reasons and those that they rest on. A chain
/// begins at the declared sets.
pub fn replace_level_0(graph: &Implications, marks: &mut Marks) -> Result<(), Memory> {
    for i in 0..graph.trail.len() {
        let Some(place) = marks.rooted.get(i).copied() else {
            return Ok(());
        };
        if let Some(entry) = graph.entry(place) {
            match marks.replace_root(graph, place, entry)? {
                Some(id) => marks.outcome.units.push(Antecedent::Clause(id))?,
                None => marks.outcome.replaced.insert(place),
            }
        }
    }
    Ok(())
}

/// The level of the second newest of the entries.
fn second_level(graph: &Implications, clause: &[usize]) -> usize {
    match clause.get(1) {
        Some(place) => match graph.entry(*place) {
            Some(entry) => entry.level,
            None => 0,
        },
        None => 0,
    }
}

/// The literal block distance: how many levels the entries, newest first, stand on.
fn block_distance_of(graph: &Implications, clause: &[usize]) -> usize {
    let mut count: usize = 0;
    let mut last = None;
    for place in clause {
        if let Some(entry) = graph.entry(*place)
            && last != Some(entry.level)
        {
            count = count.saturating_add(1);
            last = Some(entry.level);
        }
    }
    count
}

/// The clause that denies what is needed of one of the entries.
fn denied(
    alloc: Global,
    graph: &Implications,
    marks: &Marks,
    places: &[usize],
) -> Result<Clause, Memory> {
    let mut clause = Clause::with_capacity(alloc, places.len())?;
    for place in places {
        if let Some(need) = marks.need(*place)
            && let Some(declared) = graph.declared(need.var)
        {
            clause.push(canonical(opposite(need), declared))?;
        }
    }
    Ok(clause)
}

/// The clauses that stand for entries of level 0, the reasons of the other entries in the order of the trail, each before the clauses of
/// the gaps that it moved a bound over, then the conflict.
fn antecedents_of(
    alloc: Global,
    graph: &Implications,
    outcome: &Outcome,
    conflict: Antecedent,
) -> Result<Items<Antecedent>, Memory> {
    let places = outcome.places();
    let gaps = outcome.gaps();
    let count = places.len().saturating_add(outcome.units.len());
    let room = count.saturating_add(gaps.len()).saturating_add(1);
    let mut antecedents = Vec::with_capacity(alloc, room)?;
    antecedents.extend_from_slice(outcome.units.as_slice())?;
    let mut cited = 0;
    for back in 0..places.len() {
        let place = places[places.len() - 1 - back];
        cited = cite_gaps(gaps, cited, place, &mut antecedents)?;
        if let Some(entry) = graph.entry(place)
            && let Reason::Implied(antecedent) = entry.reason
        {
            antecedents.push(antecedent)?;
        }
    }
    cite_gaps(gaps, cited, usize::MAX, &mut antecedents)?;
    antecedents.push(conflict)?;
    Ok(Items::from_vec(antecedents))
}

/// Adds the clauses of the gaps, but for the first so many, that entries before this one moved over, and gives how many are added then.
fn cite_gaps(
    gaps: &[(usize, usize, u64)],
    cited: usize,
    place: usize,
    antecedents: &mut Vec<Antecedent>,
) -> Result<usize, Memory> {
    for i in cited..gaps.len() {
        let (at, _, id) = gaps[i];
        if at >= place {
            return Ok(i);
        }
        antecedents.push(Antecedent::Clause(ClauseId(id)))?;
    }
    Ok(gaps.len().max(cited))
}

/// What is needed of the marked entries above level 0, and the equations that clauses need.
fn marked_literals(alloc: Global, marks: &Marks) -> Result<Items<Lit>, Memory> {
    let count = marks.marked.len().saturating_add(marks.equations.len());
    let mut literals = Vec::with_capacity(alloc, count)?;
    for place in &marks.marked {
        if let Some(need) = marks.need(*place) {
            literals.push(need)?;
        }
    }
    literals.extend_from_slice(marks.equations.as_slice())?;
    Ok(Items::from_vec(literals))
}
