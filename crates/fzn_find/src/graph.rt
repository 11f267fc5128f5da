// The variables that are told apart two by two.
use fzn_domain::Memory;
use fzn_meaning::{Comparison, Constraint, Model, Relation, Sum};
use fzn_values::Term;
use std::alloc::Global;

/// A constraint tells two different variables apart.
#[derive(Clone, Copy, Debug, PartialEq, Eq, PartialOrd, Ord)]
pub struct Edge {
    /// The number of one variable, less one.
    pub from: usize,
    /// The number of the other, less one.
    pub to: usize,
    /// The number of the constraint, counted from 1.
    pub constraint: u64,
}

/// The edges of each variable.
#[derive(Debug, Drop)]
pub struct Graph {
    /// Each in both directions, in rising order.
    edges: Vec<Edge>,
    /// By the numbers of the variables, less one: the place of the first edge; and at the end how many edges there are.
    starts: Vec<usize>,
}

impl Graph {
    /// What constraints of the model tell apart.
    pub fn of(alloc: Global, model: &Model) -> Result<Graph, Memory> {
        let mut edges = Vec::new(alloc);
        let mut number = 0u64;
        for constraint in model.constraints.as_slice() {
            number = number.saturating_add(1);
            if let Some((one, other)) = told_apart(constraint)
                && one != other
            {
                edges.push(Edge {
                    from: one,
                    to: other,
                    constraint: number,
                })?;
                edges.push(Edge {
                    from: other,
                    to: one,
                    constraint: number,
                })?;
            }
        }
        edges.sort_unstable();
        let edges = distinct(alloc, &edges)?;
        let starts = starts_of(alloc, &edges, model.vars.len())?;
        Ok(Graph { edges, starts })
    }

    /// How many edges there are, each counted in both directions.
    pub fn len(&self) -> usize {
        self.edges.len()
    }

    /// The place of the first edge of the variable of this number, less one, and the place behind its last.
    pub fn span(&self, variable: usize) -> (usize, usize) {
        let start = self.starts.get(variable).copied();
        let end = self.starts.get(variable.saturating_add(1)).copied();
        match (start, end) {
            (Some(start), Some(end)) => (start, end),
            _ => (0, 0),
        }
    }

    /// The place of the edge from one variable to another, by their numbers less one, where there is one.
    pub fn place_of(&self, from: usize, to: usize) -> Option<usize> {
        let (mut low, mut high) = self.span(from);
        for _ in 0..usize::BITS {
            if high <= low {
                return None;
            }
            let middle = low.saturating_add(high.saturating_sub(low) / 2);
            let found = self.edges.get(middle)?.to;
            if found == to {
                return Some(middle);
            }
            if found < to {
                low = middle.saturating_add(1);
            } else {
                high = middle;
            }
        }
        None
    }

    /// How many edges the variable has.
    pub fn degree(&self, variable: usize) -> usize {
        let (start, end) = self.span(variable);
        end.saturating_sub(start)
    }

    /// The edge at this place.
    pub fn edge(&self, place: usize) -> Option<Edge> {
        self.edges.get(place).copied()
    }
}

/// The first of several edges that lead from one variable to the same other.
fn distinct(alloc: Global, edges: &[Edge]) -> Result<Vec<Edge>, Memory> {
    let mut all = Vec::new(alloc);
    let mut last = None;
    for edge in edges {
        if last != Some((edge.from, edge.to)) {
            all.push(*edge)?;
            last = Some((edge.from, edge.to));
        }
    }
    Ok(all)
}

/// Where the edges of each of so many variables begin, and how many edges there are.
fn starts_of(alloc: Global, edges: &[Edge], vars: usize) -> Result<Vec<usize>, Memory> {
    let mut starts = Vec::new(alloc);
    let mut place = 0usize;
    for variable in 0..vars {
        starts.push(place)?;
        for at in place..edges.len() {
            match edges.get(at) {
                Some(edge) if edge.from <= variable => place = at.saturating_add(1),
                _ => break,
            }
        }
    }
    starts.push(place)?;
    Ok(starts)
}

/// The two variables that the constraint tells apart, by their numbers less one, where it does just that.
fn told_apart(constraint: &Constraint) -> Option<(usize, usize)> {
    match constraint {
        Constraint::Compare {
            relation: Relation::NotEqual,
            left,
            right,
            switch: None,
        } => Some((variable_in(*left)?, variable_in(*right)?)),
        Constraint::Linear {
            sum,
            comparison: Comparison::NotEqual,
            bound: 0,
            switch: None,
        } => opposite_two(sum),
        _ => None,
    }
}

/// The variables of a sum of two that are multiplied with opposite numbers.
fn opposite_two(sum: &Sum) -> Option<(usize, usize)> {
    if sum.len() != 2 {
        return None;
    }
    let (one, other) = (sum.place(0), sum.place(1));
    if one.coefficient == 0 || one.coefficient.saturating_add(other.coefficient) != 0 {
        return None;
    }
    Some((variable_in(one.term)?, variable_in(other.term)?))
}

fn variable_in(term: Term) -> Option<usize> {
    match term {
        Term::Constant(_) => None,
        Term::Variable(var) => var.0.checked_sub(1),
    }
}
