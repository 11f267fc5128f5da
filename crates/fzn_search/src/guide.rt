// What to decide next: what the annotations want, and once they leave nothing to decide, what conflicts told. Nothing here is trusted:
// whoever asks tests the answer.
ghost use Rattle.std.specs.Prelude.{◌≡◌, length};

use crate::choice::Choice;
use crate::order::Order;
use crate::probes::Probes;
use crate::restarts::Restarts;
use fzn_activity::{Comparisons, Heap, Ties, greatest_value, least_value, open_domain, value_of};
use fzn_costs::{Costs, costs_of};
use fzn_domain::{Domain, GREATEST_VALUE, LEAST_VALUE, Lit, Memory, Op, VarId};
use fzn_meaning::{Goal, Model, Var};
use fzn_strategy::{Annotation, Parameters};
use fzn_trail::Trail;
use std::alloc::Global;

/// Who decides.
#[derive(Clone, Copy)]
enum Turn {
    Annotated,
    Weighted,
    Active,
}

/// The order of the annotations, and beside it what conflicts told of the variables that stand in none.
#[derive(Drop)]
pub struct Guide {
    order: Order,
    /// The same variables by their weights, where activity decides every variable and no solution was found.
    weighted: Option<Order>,
    /// By variable: the least and the greatest declared value.
    bounds: Vec<(i64, i64)>,
    /// By variable: the value that it had last, where activity decides it, but for those under a probe.
    last_values: Vec<Option<i64>>,
    /// By variable: its value in the last solution, where activity decides every variable.
    found_values: Vec<Option<i64>>,
    comparisons: Comparisons,
    /// The variables by their activity.
    activity: Heap,
    ties: Ties,
    restarts: Option<Restarts>,
    /// What the search assumes of the objective at some restarts, where activity decides every variable.
    probes: Probes,
    /// Whether activity decides every variable, and not only those that stand in no annotation; annotations then only help to find the
    /// first solution.
    free: bool,
    /// Whether a solution was found.
    has_solution: bool,
    /// How many restarts there were that no probe asked for.
    restarted: u64,
    /// What is tried first until a solution is found, where activity decides every variable.
    costs: Costs,
    /// The variable that is maximised, if one is, counted from 0: of its values the greatest are tried first, of all others the least.
    maximised: Option<usize>,
    /// The numbers that the search goes by.
    parameters: Parameters,
}

impl Guide {
    pub fn new(
        alloc: Global,
        model: &Model,
        annotations: &[Annotation],
        choice: Choice,
    ) -> Result<Guide, Memory> {
        let vars = model.vars.as_slice();
        let mut ties = Ties::new(choice.seed);
        // Whoever searches freely looks for some solution first, and for a good one then.
        let left_out = if choice.free {
            objective_of(model.goal)
        } else {
            None
        };
        let order = Order::new(alloc, vars.len(), annotations, left_out, &mut ties)?;
        let weighted = if choice.free {
            let order = Order::by_weight(alloc, model, annotations, left_out, &mut ties)?;
            Some(order)
        } else {
            None
        };
        let first = match &weighted {
            Some(weighted) if !order.has_seats() => weighted,
            _ => &order,
        };
        let activity = by_rank(alloc, vars.len(), first, &mut ties)?;
        let parameters = choice.parameters;
        let bounds = bounds_of(alloc, vars)?;
        let comparisons = Comparisons::new(alloc, bounds.as_slice())?;
        Ok(Guide {
            order,
            weighted,
            bounds,
            last_values: vec![in alloc; None; vars.len()]?,
            found_values: vec![in alloc; None; vars.len()]?,
            comparisons,
            activity,
            ties,
            restarts: choice
                .restart_after
                .map(|first| Restarts::new(first, &parameters)),
            probes: Probes::new(model, &parameters),
            free: choice.free,
            has_solution: false,
            restarted: 0,
            costs: if choice.free {
                costs_of(
                    alloc,
                    model,
                    parameters.cost_terms as usize,
                    parameters.cost_passes as usize,
                )?
            } else {
                Costs::none(alloc)
            },
            maximised: maximised_by(model.goal),
            parameters,
        })
    }

    /// The first variable with more than one value, counted from 0.
    pub fn first_open(&mut self, trail: &Trail, vars: usize) -> Option<usize>
        requires { vars ≡ length trail.now.declared }
    {
        self.order.first_open(trail, vars)
    }

    /// The literal to assume next, if one is known.
    pub fn next(&mut self, trail: &Trail, vars: usize) -> Option<Lit>
        requires { vars ≡ length trail.now.declared }
    {
        if self.free {
            if let Some(lit) = self.probes.next(trail, vars) {
                return Some(lit);
            }
        }
        if let Some(lit) = self.annotated(trail, vars) {
            return Some(lit);
        }
        if let Some(comparison) = self.comparisons.most_active(trail, vars) {
            return Some(self.as_last(trail, vars, comparison));
        }
        let number = self.most_active(trail, vars)?;
        if let Some(lit) = self.cheapest(trail, vars, number) {
            return Some(lit);
        }
        if self.maximised == Some(number) {
            greatest_value(trail, vars, number)
        } else {
            least_value(trail, vars, number)
        }
    }

    /// What the annotations want, where it is for them to decide, or the order by weights; of a variable that is known to cost something the
    /// cheapest value. Where activity decides every variable, that is until a solution is found, and in some periods between restarts, the
    /// first of all included.
    fn annotated(&mut self, trail: &Trail, vars: usize) -> Option<Lit>
        requires { vars ≡ length trail.now.declared }
    {
        let lit = match self.turn() {
            Turn::Annotated => self.order.next(trail, vars)?,
            Turn::Weighted => self.weighted.as_mut()?.next(trail, vars)?,
            Turn::Active => return None,
        };
        let cheapest = self.cheapest(trail, vars, lit.var.0.saturating_sub(1));
        Some(cheapest.unwrap_or(lit))
    }

    /// Who decides in this period between restarts: without a solution the annotations in one of so many, the order by weights in the one
    /// behind it, or in its place where there are no annotations, and activity in the others; behind a solution activity alone.
    fn turn(&self) -> Turn {
        if !self.free {
            return Turn::Annotated;
        }
        if self.has_solution {
            return Turn::Active;
        }
        let first = if self.order.has_seats() {
            Turn::Annotated
        } else {
            Turn::Weighted
        };
        match self.restarted % self.parameters.annotation_turns.max(1) {
            0 => first,
            1 if self.order.has_seats() => Turn::Weighted,
            _ => Turn::Active,
        }
    }

    /// The variable of this number, counted from 0, takes its cheapest value, where no solution was found yet and it is known to cost
    /// something.
    fn cheapest(&self, trail: &Trail, vars: usize, number: usize) -> Option<Lit>
        requires { vars ≡ length trail.now.declared }
    {
        if self.has_solution {
            None
        } else {
            self.costs.cheapest(trail, vars, number)
        }
    }

    /// The most active variable with more than one value, counted from 0.
    fn most_active(&mut self, trail: &Trail, vars: usize) -> Option<usize>
        requires { vars ≡ length trail.now.declared }
    {
        for _ in 0..self.activity.len() {
            let number = self.activity.top()?;
            if open_domain(trail, vars, number).is_some() {
                return Some(number);
            }
            self.activity.pop();
        }
        None
    }

    /// The comparison or its opposite, whichever the last value of its variable made true. Where there was none, its cheapest value counts,
    /// and where none is known to be cheap, it is a bound from above, or from below where the variable is maximised.
    fn as_last(&self, trail: &Trail, vars: usize, comparison: Lit) -> Lit
        requires { vars ≡ length trail.now.declared }
    {
        let number = comparison.var.0.saturating_sub(1);
        let cheapest = || self.cheapest(trail, vars, number).map(|lit| lit.value);
        let is_true = match self.suggested(number).or_else(cheapest) {
            Some(value) => comparison.is_true_at(value),
            None => comparison.op == Op::AtMost && self.maximised != Some(number),
        };
        if is_true || comparison.value < LEAST_VALUE || GREATEST_VALUE < comparison.value {
            comparison
        } else {
            comparison.negated()
        }
    }

    /// Whether this period between restarts is one in so many, of which the first is the first of all.
    fn is_turn(&self, turns: u64) -> bool {
        self.restarted % turns.max(1) == 0
    }

    /// The value that the variable of this number, counted from 0, had last, or in some periods between restarts that of the last solution,
    /// if one was found.
    fn suggested(&self, number: usize) -> Option<i64> {
        let found = self.found_values.get(number).copied().flatten();
        if found.is_some() && self.is_turn(self.parameters.solution_turns) {
            found
        } else {
            self.last_values.get(number).copied().flatten()
        }
    }

    /// Whether activity decides the variable of this number, counted from 0.
    fn is_by_activity(&self, number: usize) -> bool {
        self.free || !self.order.is_seated(number)
    }

    /// The entries from this place on will be dropped. A variable that has one value now came to it by one of them.
    pub fn undo(&mut self, trail: &Trail, from: usize) {
        self.order.undo(from);
        if let Some(weighted) = &mut self.weighted {
            weighted.undo(from);
        }
        for place in from..trail.len() {
            let number = trail.entry(place).lit.var.0.saturating_sub(1);
            self.order.set_free(number);
            if let Some(weighted) = &mut self.weighted {
                weighted.set_free(number);
            }
            if self.is_by_activity(number) {
                if !self.probes.is_assumed()
                    && let Some(value) = value_of(trail, number)
                {
                    self.keep_value(number, value);
                }
                self.activity.put(number);
                self.comparisons.set_free(number);
            }
        }
    }

    /// Each variable has one value: a solution is found.
    pub fn found(&mut self, trail: &Trail, vars: usize)
        requires { vars ≡ length trail.now.declared }
    {
        self.has_solution = true;
        self.weighted = None;
        self.probes.found();
        if !self.free {
            return;
        }
        for number in 0..vars {
            let domain = trail.domain(VarId(number + 1));
            if number < self.found_values.len() && !domain.is_empty() {
                self.found_values[number] = Some(domain.min());
            }
        }
    }

    fn keep_value(&mut self, number: usize, value: i64) {
        if number < self.last_values.len() {
            self.last_values[number] = Some(value);
        }
    }

    /// The present conflict rests on these literals.
    pub fn bump(&mut self, lits: &[Lit]) -> Result<(), Memory> {
        for lit in lits {
            let number = lit.var.0.saturating_sub(1);
            if self.is_by_activity(number) {
                if let Some((least, greatest)) = self.bounds.get(number).copied() {
                    self.activity.bump(number);
                    if let Some(weighted) = &mut self.weighted {
                        weighted.bump(number);
                    }
                    self.comparisons
                        .bump(comparison_of(*lit, least, greatest), &mut self.ties)?;
                }
            }
        }
        Ok(())
    }

    /// The present conflict is over. Answers whether a restart is due.
    pub fn conflict(&mut self) -> bool {
        self.comparisons.decay(self.parameters.decay);
        self.activity.decay(self.parameters.decay);
        let is_over = self.probes.count_conflict();
        let Some(restarts) = &mut self.restarts else {
            return false;
        };
        if is_over {
            return true;
        }
        if self.probes.is_trying() || !restarts.count_conflict() {
            return false;
        }
        self.restarted = self.restarted.saturating_add(1);
        self.probes.restart();
        true
    }
}

/// The variable that is minimised or maximised.
fn objective_of(goal: Goal) -> Option<VarId> {
    match goal {
        Goal::Satisfy => None,
        Goal::Minimize(var) | Goal::Maximize(var) => Some(var),
    }
}

/// The variable that is maximised, counted from 0.
fn maximised_by(goal: Goal) -> Option<usize> {
    match goal {
        Goal::Satisfy | Goal::Minimize(_) => None,
        Goal::Maximize(var) => var.0.checked_sub(1),
    }
}

/// All variables with no activity. Ties go by the ranks, and with a seed by random words.
fn by_rank(alloc: Global, vars: usize, order: &Order, ties: &mut Ties) -> Result<Heap, Memory> {
    let mut heap = Heap::new(alloc);
    for number in 0..vars {
        heap.grow(ties.tie(order.rank(number)))?;
    }
    Ok(heap)
}

fn bounds_of(alloc: Global, vars: &[Var]) -> Result<Vec<(i64, i64)>, Memory> {
    let mut bounds = Vec::new(alloc);
    for var in vars {
        bounds.push(ends(&var.domain))?;
    }
    Ok(bounds)
}

fn ends(domain: &Domain) -> (i64, i64) {
    if domain.is_empty() {
        (1, 0)
    } else {
        (domain.min(), domain.max())
    }
}

/// The comparison `x <= k` or `x == k` that the literal or its opposite is, for declared values between these two. At either of the
/// two an equation is a bound.
fn comparison_of(lit: Lit, least: i64, greatest: i64) -> Lit {
    let (op, value) = match lit.op {
        Op::AtMost => (Op::AtMost, lit.value),
        Op::AtLeast => (Op::AtMost, lit.value.saturating_sub(1)),
        _ if lit.value <= least => (Op::AtMost, least),
        _ if greatest <= lit.value => (Op::AtMost, greatest.saturating_sub(1)),
        _ => (Op::Equal, lit.value),
    };
    Lit {
        var: lit.var,
        op,
        value,
    }
}
