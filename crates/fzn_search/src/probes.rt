// A search from below: at some restarts the first decision is that the objective lies in the best part of what is open. Where that is
// refuted the search learns a bound, which stands on the certificate as a clause of one literal. Where a row bounds the objective the part is
// a share of what is open, and nothing is counted; else it is some values next to the best one, for a share of the conflicts. Without a row
// there are descents besides: behind a solution the first decision is that the next one is better by more than it has to be.
ghost use Rattle.std.specs.Prelude.{◌≡◌, ◌<◌, length};
ghost use Rattle.fzn_domain.specs.IntSet.{size};

use fzn_activity::open_domain;
use fzn_domain::{Domain, Lit, Op, VarId};
use fzn_meaning::{Constraint, Goal, Model};
use fzn_strategy::Parameters;
use fzn_trail::Trail;

/// The variable that is minimised or maximised.
#[derive(Clone, Copy, Debug)]
struct Objective {
    /// Counted from 0.
    number: usize,
    is_maximised: bool,
}

impl Objective {
    /// The bound that leaves the best of these values, from the least to the greatest, and so many more.
    fn bound(self, least: i64, greatest: i64, more: i64) -> Lit {
        let (op, value) = if self.is_maximised {
            (Op::AtLeast, greatest.saturating_sub(more))
        } else {
            (Op::AtMost, least.saturating_add(more))
        };
        Lit {
            var: VarId(self.number.saturating_add(1)),
            op,
            value,
        }
    }
}

/// A bound of the objective that is assumed first, and for how many conflicts more it may be.
#[derive(Clone, Copy, Debug)]
struct Probe {
    bound: Lit,
    left: u64,
}

/// The share of what is open of the objective that is assumed first, at every second restart behind a solution.
#[derive(Clone, Copy, Debug)]
struct Part {
    /// In thousandths: at first, and now.
    first: u64,
    share: u64,
    /// Whether the restart before this one began with no part, and whether there is a solution.
    is_next: bool,
    has_solution: bool,
    /// What was assumed since the last restart.
    bound: Option<Lit>,
}

/// How far below the last solution the next one is looked for, where no row bounds the objective.
#[derive(Clone, Copy, Debug)]
struct Descent {
    /// How many of the values that are open are left out, from the worst one on.
    step: i64,
    /// Whether a solution was found behind which none has begun yet.
    is_due: bool,
    /// What is assumed first, and for how many conflicts more.
    probe: Option<Probe>,
    /// How many conflicts there were in all descents.
    spent: u64,
}

/// A descent takes no more conflicts than these.
const DESCENT: u64 = 32;

/// So many conflicts more than a quarter of all are for descents.
const SPARE_DESCENTS: u64 = 64;

/// The greatest share that is assumed, in thousandths.
const WIDEST_PART: u64 = 970;

/// Which bounds of the objective are tried.
#[derive(Clone, Copy, Debug)]
pub struct Probes {
    objective: Option<Objective>,
    /// Where a row bounds the objective.
    part: Option<Part>,
    /// Whether a probe may begin with the next decision at level 0.
    is_due: bool,
    probe: Option<Probe>,
    descent: Descent,
    /// Whether the first decision on the trail was a probe's.
    is_assumed: bool,
    /// How many values the next probe leaves, counted from the best one that is not refuted.
    width: i64,
    /// How many conflicts there were, and how many of them in probes.
    conflicts: u64,
    spent: u64,
    /// One in so many conflicts is for probes, which is 1 at least.
    share: u64,
    /// How many conflicts a probe may take at least: none begins where fewer are left for probes.
    least: u64,
}

impl Probes {
    /// Nothing was tried.
    pub fn new(model: &Model, parameters: &Parameters) -> Probes {
        let share = parameters.probe_part;
        Probes {
            objective: objective_of(model.goal),
            part: if has_row(model) {
                Some(Part {
                    first: share,
                    share,
                    is_next: false,
                    has_solution: false,
                    bound: None,
                })
            } else {
                None
            },
            is_due: false,
            probe: None,
            descent: Descent {
                step: 0,
                is_due: false,
                probe: None,
                spent: 0,
            },
            is_assumed: false,
            width: 1,
            conflicts: 0,
            spent: 0,
            share: parameters.probe_share,
            least: parameters.probe_conflicts,
        }
    }

    /// The search restarts: a probe may begin.
    pub fn restart(&mut self) {
        self.is_due = true;
    }

    /// A solution was found.
    pub fn found(&mut self) {
        if let Some(part) = &mut self.part {
            part.has_solution = true;
            part.share = part.first;
            part.bound = None;
        }
        self.descent.found();
    }

    /// Whether a bound is being tried.
    pub fn is_trying(&self) -> bool {
        self.probe.is_some() || self.descent.probe.is_some()
    }

    /// Whether the first decision on the trail was a probe's.
    pub fn is_assumed(&self) -> bool {
        self.is_assumed
    }

    /// How many conflicts are left for probes.
    fn left(&self) -> u64 {
        (self.conflicts / self.share.max(1)).saturating_sub(self.spent)
    }

    /// Counts a conflict, and answers whether a probe has had its share: the search then restarts without one.
    pub fn count_conflict(&mut self) -> bool {
        self.conflicts = self.conflicts.saturating_add(1);
        if self.descent.count_conflict() {
            return true;
        }
        let Some(probe) = &mut self.probe else {
            return false;
        };
        self.spent = self.spent.saturating_add(1);
        probe.left = probe.left.saturating_sub(1);
        if probe.left > 0 {
            return false;
        }
        self.probe = None;
        self.width = (self.width / 2).max(1);
        true
    }

    /// The bound to assume first, if one is to be: that of a probe that goes on, or of the next one, where one is due or the last one ended.
    pub fn next(&mut self, trail: &Trail, vars: usize) -> Option<Lit>
        requires { vars ≡ length trail.now.declared }
    {
        if trail.level() > 0 {
            return None;
        }
        let bound = self.at_level_0(trail, vars);
        self.is_assumed = bound.is_some() && self.part.is_none() && self.descent.probe.is_none();
        bound
    }

    fn at_level_0(&mut self, trail: &Trail, vars: usize) -> Option<Lit>
        requires { vars ≡ length trail.now.declared }
    {
        let objective = self.objective?;
        if let Some(part) = &mut self.part {
            let domain = open_domain(trail, vars, objective.number)?;
            let bound = part.next(objective, domain, self.is_due);
            self.is_due = false;
            return bound;
        }
        if let Some(domain) = open_domain(trail, vars, objective.number)
            && let Some(bound) = self.descent.next(objective, domain, self.conflicts)
        {
            return Some(bound);
        }
        let last = self.probe.take();
        if last.is_none() && !self.is_due {
            return None;
        }
        let domain = open_domain(trail, vars, objective.number)?;
        if let Some(probe) = last {
            if is_open(domain, probe.bound) {
                self.probe = last;
                return Some(probe.bound);
            }
            // A refuted one was cheap, so the next one leaves more values. Behind a solution it leaves the best one alone.
            self.width = if domain.is_false(probe.bound) {
                self.width.saturating_mul(2)
            } else {
                1
            };
        }
        self.is_due = false;
        let left = self.left();
        if left < self.least {
            return None;
        }
        let bound = self.bound(objective, domain)?;
        self.probe = Some(Probe { bound, left });
        Some(bound)
    }

    /// The bound that leaves the objective so many values, but no more than the better half.
    fn bound(&self, objective: Objective, domain: &Domain) -> Option<Lit> {
        if domain.is_empty() {
            return None;
        }
        let (least, greatest) = (domain.min(), domain.max());
        let half = greatest.saturating_sub(least) / 2;
        let more = self.width.saturating_sub(1).min(half);
        Some(objective.bound(least, greatest, more))
    }
}

impl Part {
    /// The bound to assume at level 0, if one is to be: that of the present period between restarts while it is open, and in every second
    /// period a new one. One that has decided nothing in its period makes the next one wider.
    fn next(&mut self, objective: Objective, domain: &Domain, is_due: bool) -> Option<Lit> {
        let is_undecided = match self.bound {
            Some(bound) => is_open(domain, bound),
            None => false,
        };
        if !is_due {
            return if is_undecided { self.bound } else { None };
        }
        self.bound = None;
        if is_undecided {
            self.share = self.share.saturating_add(1_000) / 2;
        }
        self.is_next = !self.is_next;
        if !self.is_next || !self.has_solution || domain.is_empty() {
            return None;
        }
        self.bound = Some(bound_at(objective, domain, self.share.min(WIDEST_PART)));
        self.bound
    }
}

impl Descent {
    /// A solution was found. Where a descent has led to it, the next one leaves out twice as many values.
    fn found(&mut self) {
        self.step = if self.probe.is_some() {
            self.step.saturating_mul(2)
        } else {
            self.step.max(1)
        };
        self.probe = None;
        self.is_due = true;
    }

    /// Counts a conflict, and answers whether a descent has had its share: the search then restarts without one.
    fn count_conflict(&mut self) -> bool {
        let Some(probe) = &mut self.probe else {
            return false;
        };
        self.spent = self.spent.saturating_add(1);
        probe.left = probe.left.saturating_sub(1);
        if probe.left > 0 {
            return false;
        }
        self.probe = None;
        self.step /= 4;
        true
    }

    /// The bound to assume at level 0, if one is to be: that of a descent that goes on, or of the next one, behind a solution.
    fn next(&mut self, objective: Objective, domain: &Domain, conflicts: u64) -> Option<Lit> {
        if let Some(probe) = self.probe {
            if is_open(domain, probe.bound) {
                return Some(probe.bound);
            }
            self.probe = None;
            self.step /= 4;
        }
        if !self.is_due || domain.is_empty() {
            return None;
        }
        self.is_due = false;
        if (conflicts / 4).saturating_add(SPARE_DESCENTS) < self.spent {
            return None;
        }
        let (least, greatest) = (domain.min(), domain.max());
        let step = self.step.min(greatest.saturating_sub(least) / 2);
        if step < 1 {
            return None;
        }
        let more = greatest.saturating_sub(least).saturating_sub(step);
        let bound = objective.bound(least, greatest, more);
        self.probe = Some(Probe {
            bound,
            left: DESCENT,
        });
        Some(bound)
    }
}

/// The bound that leaves the objective so many thousandths of what is open, and not all of it.
fn bound_at(objective: Objective, domain: &Domain, share: u64) -> Lit
    requires { 0 < size domain.now }
{
    let (least, greatest) = (domain.min(), domain.max());
    let span = greatest.saturating_sub(least);
    let more = i64::try_from(span.unsigned_abs().saturating_mul(share) / 1_000).unwrap_or(0);
    let more = more.min(span.saturating_sub(1)).max(0);
    objective.bound(least, greatest, more)
}

/// Whether a row was derived.
fn has_row(model: &Model) -> bool {
    for constraint in model.constraints.as_slice() {
        if let Constraint::Row(_) = constraint {
            return true;
        }
    }
    false
}

/// Whether some values make the bound true, and others false.
fn is_open(domain: &Domain, bound: Lit) -> bool {
    if domain.is_empty() || domain.is_false(bound) {
        return false;
    }
    match bound.op {
        Op::AtMost => bound.value < domain.max(),
        _ => domain.min() < bound.value,
    }
}

fn objective_of(goal: Goal) -> Option<Objective> {
    let (var, is_maximised) = match goal {
        Goal::Satisfy => return None,
        Goal::Minimize(var) => (var, false),
        Goal::Maximize(var) => (var, true),
    };
    Some(Objective {
        number: var.0.checked_sub(1)?,
        is_maximised,
    })
}
