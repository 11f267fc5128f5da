// Cliques of variables that are told apart two by two.
ghost use Rattle.std.specs.Prelude.{IfOk};
ghost use Rattle.std.specs.List.{All};
ghost use Rattle.fzn_meaning.specs.WellFormed.{IsWellFormed};
ghost use Rattle.fzn_meaning.specs.Solutions.{declared_sets};
ghost use Rattle.fzn_derive.specs.Derived.{IsDerivable};

use crate::graph::{Edge, Graph};
use crate::testing::tested;
use fzn_derive::Derivation;
use fzn_domain::{Memory, VarId};
use fzn_list::Items;
use fzn_meaning::Model;
use fzn_multipliers::Work;
use std::alloc::Global;

/// A clique of fewer variables says no more than its edges do.
const FEWEST: usize = 3;

/// So many cliques are found at the most.
const MOST_CLIQUES: usize = 1_000;

/// So many constraints are named at the most, each as often as it is named.
const MOST_NAMED: u64 = 1_000_000;

/// So many edges are looked for at the most, while cliques are grown.
const MOST_LOOKS: u64 = 1_000_000;

/// Cliques of at least three variables of which constraints tell each two apart (`int_ne`, or `int_lin_ne` of their difference and 0).
/// Each begins with two that are in none before it, and grows while it can. The largest are found, and of the others those that have more than
/// half as many variables as there are values from their least to their greatest: a smaller one says little more than its edges do, and costs as
/// much at each step of a search. It answers `Err` where memory runs out.
pub fn cliques(alloc: Global, model: &Model) -> Result<Items<Derivation>, Memory>
    requires { IsWellFormed model.now }
    ensures { IfOk result (All (IsDerivable model.now.constraints (declared_sets model.now.vars))) }
{
    let mut found = Vec::new(alloc);
    push_cliques(alloc, model, &mut found)?;
    tested(alloc, model, found)
}

/// Puts them at the end of the list.
pub fn push_cliques(
    alloc: Global,
    model: &Model,
    found: &mut Vec<Derivation>,
) -> Result<(), Memory> {
    let graph = Graph::of(alloc, model)?;
    let vars = model.vars.len();
    let mut cover = Cover {
        covered: vec![in alloc; false; graph.len()]?,
        members: Vec::new(alloc),
        candidates: Vec::new(alloc),
        work: Work::new(MOST_LOOKS),
        named: Work::new(MOST_NAMED),
        count: 0,
    };
    let mut all = Vec::new(alloc);
    for variable in by_degree(alloc, &graph, vars)? {
        cover.cover(alloc, &graph, variable, &mut all)?;
        if cover.is_over() {
            break;
        }
    }
    let mut largest = FEWEST;
    for clique in all.iter() {
        largest = largest.max(members_of(clique).len());
    }
    for clique in all {
        let members = members_of(&clique);
        if largest <= members.len() || is_tight(model, members) {
            found.push(clique)?;
        }
    }
    Ok(())
}

/// The variables of a clique.
fn members_of(clique: &Derivation) -> &[VarId] {
    match clique {
        Derivation::AllDifferent { variables, .. } => variables.as_slice(),
        _ => &[],
    }
}

/// Whether these are more than half as many as the values from their least to their greatest.
fn is_tight(model: &Model, members: &[VarId]) -> bool {
    let mut least = i64::MAX;
    let mut greatest = i64::MIN;
    for member in members {
        if let Some(var) = model.vars.as_slice().get(member.0.wrapping_sub(1))
            && !var.domain.is_empty()
        {
            least = least.min(var.domain.min());
            greatest = greatest.max(var.domain.max());
        }
    }
    greatest.saturating_sub(least) < (members.len() as i64).saturating_mul(2)
}

/// The variables with edges, those with more of them first.
fn by_degree(alloc: Global, graph: &Graph, vars: usize) -> Result<Vec<usize>, Memory> {
    let mut ranks = Vec::new(alloc);
    for variable in 0..vars {
        let degree = graph.degree(variable);
        if degree > 0 {
            ranks.push((usize::MAX.saturating_sub(degree), variable))?;
        }
    }
    ranks.sort_unstable();
    let mut variables = Vec::new(alloc);
    for (_, variable) in ranks.iter() {
        variables.push(*variable)?;
    }
    Ok(variables)
}

/// The cliques as they are found.
#[derive(Debug, Drop)]
struct Cover {
    /// By the places of the edges: whether a clique has it.
    covered: Vec<bool>,
    /// The clique that grows.
    members: Vec<usize>,
    /// What has an edge to each of its members.
    candidates: Vec<usize>,
    work: Work,
    /// How many more constraints may be named.
    named: Work,
    count: usize,
}

impl Cover {
    fn is_over(&self) -> bool {
        self.work.is_done() || self.named.is_done() || MOST_CLIQUES <= self.count
    }

    /// Finds cliques for the edges of the variable that no clique has.
    fn cover(
        &mut self,
        alloc: Global,
        graph: &Graph,
        variable: usize,
        found: &mut Vec<Derivation>,
    ) -> Result<(), Memory> {
        let (start, end) = graph.span(variable);
        for place in start..end {
            if self.is_over() {
                return Ok(());
            }
            if self.covered.get(place).copied() == Some(false)
                && let Some(edge) = graph.edge(place)
            {
                self.grow(alloc, graph, variable, edge.to)?;
                if FEWEST <= self.members.len() {
                    self.close(alloc, graph, found)?;
                } else {
                    let _ = mark(&mut self.covered, graph, edge.to, variable);
                }
            }
        }
        Ok(())
    }

    /// The clique that begins with these two.
    fn grow(
        &mut self,
        alloc: Global,
        graph: &Graph,
        one: usize,
        other: usize,
    ) -> Result<(), Memory> {
        self.members.clear();
        self.members.push(one)?;
        self.members.push(other)?;
        if graph.degree(one) < graph.degree(other) {
            self.begin(graph, one, other)?;
        } else {
            self.begin(graph, other, one)?;
        }
        for _ in 0..self.candidates.len() {
            match self.best(graph) {
                Some(next) => self.take(alloc, graph, next)?,
                None => return Ok(()),
            }
        }
        Ok(())
    }

    /// The candidates: what has an edge to both. The first has no more edges than the second.
    fn begin(&mut self, graph: &Graph, one: usize, other: usize) -> Result<(), Memory> {
        self.candidates.clear();
        let (start, end) = graph.span(one);
        let _ = self.work.take(end.saturating_sub(start));
        for place in start..end {
            if let Some(edge) = graph.edge(place)
                && graph.place_of(other, edge.to).is_some()
            {
                self.candidates.push(edge.to)?;
            }
        }
        Ok(())
    }

    /// One more member: those candidates stay that have an edge to it.
    fn take(&mut self, alloc: Global, graph: &Graph, member: usize) -> Result<(), Memory> {
        self.members.push(member)?;
        let _ = self.work.take(self.candidates.len());
        let mut left = Vec::new(alloc);
        for candidate in self.candidates.iter() {
            if graph.place_of(member, *candidate).is_some() {
                left.push(*candidate)?;
            }
        }
        self.candidates = left;
        Ok(())
    }

    /// The candidate with edges to the most others; the first where no more may be looked for.
    fn best(&mut self, graph: &Graph) -> Option<usize> {
        let mut best = self.candidates.first().copied()?;
        let mut most = 0;
        let others = self.candidates.len().saturating_sub(1);
        for candidate in self.candidates.iter() {
            if others <= most || !self.work.take(others) {
                break;
            }
            let count = count_beside(graph, *candidate, &self.candidates);
            if most < count {
                best = *candidate;
                most = count;
            }
        }
        Some(best)
    }

    /// The clique is as large as it grows: its edges are covered, and where so many constraints may be named, it is found.
    fn close(
        &mut self,
        alloc: Global,
        graph: &Graph,
        found: &mut Vec<Derivation>,
    ) -> Result<(), Memory> {
        let size = self.members.len();
        let pairs = size.saturating_mul(size.saturating_sub(1)) / 2;
        let _ = self.work.take(pairs);
        if !self.named.take(pairs) {
            return Ok(());
        }
        let mut constraints = Items::new(alloc);
        let mut variables = Items::new(alloc);
        for i in 0..size {
            if let Some(one) = self.members.get(i).copied() {
                variables.push(VarId(one.saturating_add(1)))?;
                for j in i.saturating_add(1)..size {
                    if let Some(other) = self.members.get(j).copied()
                        && let Some(edge) = mark(&mut self.covered, graph, one, other)
                    {
                        let _ = mark(&mut self.covered, graph, other, one);
                        constraints.push(edge.constraint)?;
                    }
                }
            }
        }
        self.count = self.count.saturating_add(1);
        found.push(Derivation::AllDifferent {
            variables,
            constraints,
        })?;
        Ok(())
    }
}

/// The edge from one variable to another, which is covered from now on.
fn mark(covered: &mut Vec<bool>, graph: &Graph, from: usize, to: usize) -> Option<Edge> {
    let place = graph.place_of(from, to)?;
    if let Some(mark) = covered.get_mut(place) {
        *mark = true;
    }
    graph.edge(place)
}

/// How many of these the variable has an edge to.
fn count_beside(graph: &Graph, variable: usize, others: &[usize]) -> usize {
    let mut count = 0usize;
    for other in others {
        if graph.place_of(variable, *other).is_some() {
            count = count.saturating_add(1);
        }
    }
    count
}
