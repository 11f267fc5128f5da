// Clauses that hold at level 0: of one literal for an entry, of two for a gap.
use crate::first_uip::replace_level_0;
use crate::marks::{Marks, Wanted};
use fzn_domain::{Clause, Lit, Memory};
use fzn_explanation::{Cause, Implications, canonical};
use fzn_learned::Learned;
use fzn_list::Items;
use fzn_trail::Antecedent;
use std::alloc::Global;

/// Notes that a clause is wanted for the entry of level 0 at this place, and for those that it rests on.
pub fn want_root(graph: &Implications, marks: &mut Marks, place: usize) -> Result<(), Memory> {
    let Some(entry) = graph.entry(place) else {
        return Ok(());
    };
    marks.begin(graph)?;
    let need = entry.lit;
    marks.mark(graph, Cause { place, need })?;
    replace_level_0(graph, marks)?;
    marks.want(place)
}

/// The clause for what it is wanted for: the literal of an entry of level 0, or what stands for a gap.
pub fn wanted_clause(
    alloc: Global,
    graph: &Implications,
    marks: &mut Marks,
    wanted: Wanted,
) -> Result<Option<Learned>, Memory> {
    match wanted {
        Wanted::Entry(place) => unit_clause(alloc, graph, marks, place),
        Wanted::Gap(number) => gap_clause(alloc, graph, marks, number),
    }
}

/// The clause that stands for the gap of this number.
fn gap_clause(
    alloc: Global,
    graph: &Implications,
    marks: &Marks,
    number: usize,
) -> Result<Option<Learned>, Memory> {
    let Some(gap) = marks.gap(number) else {
        return Ok(None);
    };
    let (low, high) = gap.literals();
    let antecedents = marks.gap_antecedents(alloc, graph, gap)?;
    Ok(Some(at_level_0(alloc, [low, high].as_slice(), antecedents)?))
}

/// The literal of an entry of level 0 as a clause of its own.
fn unit_clause(
    alloc: Global,
    graph: &Implications,
    marks: &mut Marks,
    place: usize,
) -> Result<Option<Learned>, Memory> {
    let Some(entry) = graph.entry(place) else {
        return Ok(None);
    };
    let Some(declared) = graph.declared(entry.lit.var) else {
        return Ok(None);
    };
    let lit = canonical(entry.lit, declared);
    let antecedents = marks.root_antecedents(alloc, graph, entry)?;
    Ok(Some(at_level_0(alloc, [lit].as_slice(), antecedents)?))
}

/// A clause that holds at level 0, with the antecedents that it follows from.
fn at_level_0(
    alloc: Global,
    clause: &[Lit],
    antecedents: Items<Antecedent>,
) -> Result<Learned, Memory> {
    Ok(Learned {
        clause: Clause::from_slice(alloc, clause)?,
        antecedents,
        level: 0,
        block_distance: 1,
        marked: Items::new(alloc),
    })
}
