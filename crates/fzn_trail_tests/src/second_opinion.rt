// The trail and the watched clauses against their plainest bodies, on random clauses and a random way up and down the levels.
ghost use Rattle.std.specs.Prelude.{◌≡◌, ◌<◌, ◌≤◌, length, IfOk, IfSome, OnOk};
ghost use Rattle.fzn_domain.specs.Narrow.{IsVariable, IsClauseOver};
ghost use Rattle.fzn_trail.specs.Levels.{level_of};
ghost use Rattle.fzn_trail_tests.specs.Carried.{IsCarried};

use crate::by_hand::{is_filled, lit, next_random};
use fzn_clauses::Clauses;
use fzn_domain::{Domain, Lit, Memory, Op, VarId};
use fzn_trail::{Reason, Trail};
use std::alloc::Global;
use std::test::*;

/// The variables go from 0 to 9, and the last one stands in no clause.
const VARIABLES: usize = 51;

const CLAUSES: usize = 1000;

const TURNS: usize = 1000;

/// Most seeds give clauses that are false at level 0, and end at once.
const SEEDS: u64 = 40;

// ---- random literals

/// Numbers in no order, from the last one on.
#[derive(Drop)]
struct Numbers {
    last: u64,
}

impl Numbers {
    /// The next one, below the count.
    fn below(&mut self, count: u64) -> u64
        requires { 0 < count }
        ensures { result < count }
    {
        self.last = next_random(self.last);
        (self.last >> 33) % count
    }
}

fn random_lit(numbers: &mut Numbers) -> Lit
    ensures { IsVariable 51 result.var }
{
    let var = 1 + numbers.below(50) as usize;
    let op = match numbers.below(4) {
        0 => Op::AtMost,
        1 => Op::AtLeast,
        2 => Op::Equal,
        _ => Op::NotEqual,
    };
    lit(var, op, numbers.below(12) as i64 - 1)
}

/// Two, three or, mostly, four literals.
fn random_clause(alloc: Global, numbers: &mut Numbers) -> Result<Vec<Lit>, Memory>
    ensures { IfOk result (λ clause. IsClauseOver 51 clause.items) }
{
    let count: usize = match numbers.below(20) {
        0 => 2,
        1 | 2 => 3,
        _ => 4,
    };
    let mut clause = Vec::new(alloc);
    for _ in 0..count {
        clause.push(random_lit(numbers))?;
    }
    Ok(clause)
}

// ---- what is tested

/// The trail and the clauses that propagate on it.
#[derive(Drop)]
struct Tested {
    trail: Trail,
    clauses: Clauses,
}

/// A set for each variable.
fn declared(alloc: Global) -> Result<Vec<Domain>, Memory>
    ensures { IfOk result (λ declared. length declared.items ≡ 51) }
{
    let mut declared = Vec::new(alloc);
    for _ in 0..VARIABLES {
        declared.push(Domain::range(alloc, 0, 9)?)?;
    }
    Ok(declared)
}

impl Tested {
    fn new(alloc: Global) -> Result<Tested, Memory>
        ensures { IfOk result (λ tested. IsCarried tested.clauses tested.trail) }
    {
        let trail = Trail::new(alloc, declared(alloc)?)?;
        let clauses = Clauses::new(alloc);
        Ok(Tested { trail, clauses })
    }

    fn hold(&mut self, clause: &[Lit]) -> Result<(), Memory>
        requires over { IsClauseOver 51 clause.now }
        requires carried { IsCarried self.old.clauses self.old.trail }
        ensures { OnOk result (IsCarried self.new.clauses self.new.trail) }
    {
        self.clauses.add(clause)?;
        Ok(())
    }

    /// Asserts the literal at a new level, if all entries were looked at, and says whether its variable has a value left.
    fn decide(&mut self, lit: Lit) -> Result<bool, Memory>
        requires variable { IsVariable 51 lit.var }
        requires carried { IsCarried self.old.clauses self.old.trail }
        ensures { OnOk result (IsCarried self.new.clauses self.new.trail) }
    {
        if self.trail.seen() != self.trail.len() {
            return Ok(false);
        }
        self.trail.push_level()?;
        let is_left = self.trail.assert(lit, Reason::Decision)?;
        Ok(is_left)
    }

    fn go_back(&mut self, level: usize)
        requires level { level ≤ level_of self.old.trail }
        requires carried { IsCarried self.old.clauses self.old.trail }
        ensures { IsCarried self.new.clauses self.new.trail }
    {
        self.trail.back_to(level);
    }

    /// Whether a clause is false after propagation, which there is where each set has a value.
    fn is_refuted(&mut self) -> Result<bool, Memory>
        requires { IsCarried self.old.clauses self.old.trail }
        ensures { OnOk result (IsCarried self.new.clauses self.new.trail) }
    {
        if !is_filled(&self.trail, VARIABLES) {
            return Ok(false);
        }
        Ok(self.clauses.propagate(&mut self.trail)?.is_some())
    }
}

// ---- the second opinion

/// A copy of all sets for each level, and clauses of which each is looked at in turn.
#[derive(Drop)]
struct Plain {
    levels: Vec<Vec<Domain>>,
    clauses: Vec<Vec<Lit>>,
}

/// What a clause says of the sets.
enum View {
    False,
    Forces(Lit),
    Nothing,
}

fn copies(alloc: Global, sets: &[Domain]) -> Result<Vec<Domain>, Memory> {
    let mut copies = Vec::new(alloc);
    for set in sets {
        copies.push(set.copy()?)?;
    }
    Ok(copies)
}

/// Whether some value of the variable makes the literal as true as is said.
fn can_be(sets: &[Domain], lit: Lit, truth: bool) -> bool {
    let Some(set) = sets.get(lit.var.0.saturating_sub(1)) else {
        return false;
    };
    for value in 0..10 {
        if set.contains(value) && lit.is_true_at(value) == truth {
            return true;
        }
    }
    false
}

fn view_of(sets: &[Domain], clause: &[Lit]) -> View {
    let mut only = None;
    for lit in clause {
        if can_be(sets, *lit, true) {
            if only.is_some() {
                return View::Nothing;
            }
            only = Some(*lit);
        }
    }
    match only {
        None => View::False,
        Some(lit) if can_be(sets, lit, false) => View::Forces(lit),
        Some(_) => View::Nothing,
    }
}

impl Plain {
    fn new(alloc: Global) -> Result<Plain, Memory> {
        let mut levels = Vec::new(alloc);
        levels.push(declared(alloc)?)?;
        Ok(Plain {
            levels,
            clauses: Vec::new(alloc),
        })
    }

    /// The present sets.
    fn sets(&self) -> &[Domain] {
        match self.levels.last() {
            Some(sets) => sets.as_slice(),
            None => &[],
        }
    }

    fn restrict(&mut self, lit: Lit) -> Result<(), Memory> {
        let place = lit.var.0.saturating_sub(1);
        if let Some(sets) = self.levels.last_mut()
            && let Some(set) = sets.get_mut(place)
        {
            set.restrict(lit)?;
        }
        Ok(())
    }

    /// Asserts the literal at a new level.
    fn decide(&mut self, alloc: Global, lit: Lit) -> Result<(), Memory> {
        let sets = copies(alloc, self.sets())?;
        self.levels.push(sets)?;
        self.restrict(lit)
    }

    fn go_back(&mut self, level: usize) {
        self.levels.truncate(level.saturating_add(1));
    }

    /// What the first clause says that is false or forces a literal.
    fn view(&self) -> View {
        for clause in &self.clauses {
            match view_of(self.sets(), clause) {
                View::Nothing => {}
                view => return view,
            }
        }
        View::Nothing
    }

    /// Whether a clause is false, before or once none forces a literal.
    fn is_refuted(&mut self) -> Result<bool, Memory> {
        for _ in 0..1000 {
            match self.view() {
                View::False => return Ok(true),
                View::Forces(lit) => self.restrict(lit)?,
                View::Nothing => return Ok(false),
            }
        }
        Ok(false)
    }
}

// ---- both

fn hold_all(
    alloc: Global,
    numbers: &mut Numbers,
    tested: &mut Tested,
    plain: &mut Plain,
) -> Result<(), Memory>
    requires { IsCarried tested.old.clauses tested.old.trail }
    ensures { OnOk result (IsCarried tested.new.clauses tested.new.trail) }
{
    for _ in 0..CLAUSES {
        let clause = random_clause(alloc, numbers)?;
        tested.hold(&clause)?;
        plain.clauses.push(clause)?;
    }
    Ok(())
}

fn is_same_set(one: &Domain, other: &Domain) -> bool {
    for value in 0..10 {
        if one.contains(value) != other.contains(value) {
            return false;
        }
    }
    if one.is_empty() || other.is_empty() {
        return false;
    }
    one.len() == other.len() && one.min() == other.min() && one.max() == other.max()
}

/// Whether there are as many levels, and the same values of each variable, of which there are some.
fn is_same(tested: &Tested, plain: &Plain) -> bool
    requires { IsCarried tested.now.clauses tested.now.trail }
{
    let sets = plain.sets();
    for k in 0..VARIABLES {
        if k >= sets.len() || !is_same_set(tested.trail.domain(VarId(k + 1)), &sets[k]) {
            return false;
        }
    }
    tested.trail.level().saturating_add(1) == plain.levels.len()
}

/// What both come to.
#[derive(Clone, Copy, PartialEq, Eq)]
enum Agreement {
    /// A clause is false.
    Conflict,
    /// No clause forces a literal, and the sets are the same.
    Fixpoint,
    /// They differ.
    Apart,
}

fn propagate(tested: &mut Tested, plain: &mut Plain) -> Result<Agreement, Memory>
    requires { IsCarried tested.old.clauses tested.old.trail }
    ensures { OnOk result (IsCarried tested.new.clauses tested.new.trail) }
{
    match (tested.is_refuted()?, plain.is_refuted()?) {
        (true, true) => Ok(Agreement::Conflict),
        (false, false) if is_same(tested, plain) => Ok(Agreement::Fixpoint),
        _ => Ok(Agreement::Apart),
    }
}

/// A literal that is neither true nor false.
fn open_lit(numbers: &mut Numbers, plain: &Plain) -> Option<Lit>
    ensures { IfSome result (λ lit. IsVariable 51 lit.var) }
{
    for _ in 0..1000 {
        let lit = random_lit(numbers);
        if can_be(plain.sets(), lit, true) && can_be(plain.sets(), lit, false) {
            return Some(lit);
        }
    }
    None
}

/// Goes back to some lower level, if there is one.
fn go_back(numbers: &mut Numbers, tested: &mut Tested, plain: &mut Plain) -> bool
    requires { IsCarried tested.old.clauses tested.old.trail }
    ensures { IsCarried tested.new.clauses tested.new.trail }
{
    let level = tested.trail.level();
    if level == 0 {
        return false;
    }
    let lower = numbers.below(level as u64) as usize;
    tested.go_back(lower);
    plain.go_back(lower);
    true
}

/// Asserts a literal at a new level, or goes back after a conflict, by chance, or where no literal is open; says whether it could.
fn step(
    alloc: Global,
    numbers: &mut Numbers,
    tested: &mut Tested,
    plain: &mut Plain,
    last: Agreement,
) -> Result<bool, Memory>
    requires { IsCarried tested.old.clauses tested.old.trail }
    ensures { OnOk result (IsCarried tested.new.clauses tested.new.trail) }
{
    let is_back = last != Agreement::Fixpoint || numbers.below(16) == 0 && tested.trail.level() > 0;
    match open_lit(numbers, plain) {
        Some(lit) if !is_back => {
            plain.decide(alloc, lit)?;
            tested.decide(lit)?;
            Ok(true)
        }
        _ => Ok(go_back(numbers, tested, plain)),
    }
}

/// How many turns came to a conflict, and how many to the same sets, up to a conflict at level 0; nothing where a turn came to neither.
fn walk(
    alloc: Global,
    numbers: &mut Numbers,
    tested: &mut Tested,
    plain: &mut Plain,
) -> Result<Option<(usize, usize)>, Memory>
    requires { IsCarried tested.old.clauses tested.old.trail }
    ensures { OnOk result (IsCarried tested.new.clauses tested.new.trail) }
{
    let (mut conflicts, mut fixpoints): (usize, usize) = (0, 0);
    let mut last = propagate(tested, plain)?;
    for _ in 0..TURNS {
        if last == Agreement::Apart || !step(alloc, numbers, tested, plain, last)? {
            break;
        }
        last = propagate(tested, plain)?;
        match last {
            Agreement::Conflict => conflicts = conflicts.saturating_add(1),
            Agreement::Fixpoint => fixpoints = fixpoints.saturating_add(1),
            Agreement::Apart => {}
        }
    }
    Ok(if last == Agreement::Apart {
        None
    } else {
        Some((conflicts, fixpoints))
    })
}

/// Whether no clause is looked at for the variable that stands in none, from a fixpoint on.
fn is_none_looked_at(tested: &mut Tested) -> Result<bool, Memory>
    requires { IsCarried tested.old.clauses tested.old.trail }
{
    let is_refuted = tested.is_refuted()?;
    let level = tested.trail.level();
    if is_refuted && level > 0 {
        tested.go_back(level - 1);
    }
    let is_fixpoint = !tested.is_refuted()?;
    let looked = tested.clauses.looked();
    let is_left = tested.decide(lit(VARIABLES, Op::AtMost, 5))?;
    let is_quiet = !tested.is_refuted()?;
    Ok(is_fixpoint && is_left && is_quiet && looked > 0 && tested.clauses.looked() == looked)
}

/// What came of a walk.
#[derive(Clone, Copy, Debug)]
struct Walked {
    counts: Option<(usize, usize)>,
    is_none_looked_at: bool,
}

impl Walked {
    /// Whether there were many turns of each outcome.
    fn is_long(self) -> bool {
        let (conflicts, fixpoints) = self.counts.unwrap_or((0, 0));
        conflicts > 100 && fixpoints > 500
    }

    /// Whether all turns were alike in both, and no clause was looked at for the last variable where they did not end at level 0.
    fn is_alike(self) -> bool {
        self.counts.is_some() && (self.is_none_looked_at || !self.is_long())
    }
}

fn walk_from(alloc: Global, seed: u64) -> Result<Walked, Memory> {
    let mut numbers = Numbers { last: seed };
    let mut tested = Tested::new(alloc)?;
    let mut plain = Plain::new(alloc)?;
    hold_all(alloc, &mut numbers, &mut tested, &mut plain)?;
    let counts = walk(alloc, &mut numbers, &mut tested, &mut plain)?;
    let is_none_looked_at = is_none_looked_at(&mut tested)?;
    Ok(Walked {
        counts,
        is_none_looked_at,
    })
}

#[test]
fn same_as_the_plainest_bodies(rt: HostRuntime) -> Result<(), Fail> {
    let mut long: usize = 0;
    for seed in 1..=SEEDS {
        let walked = walk_from(rt.alloc(), seed)?;
        assert!(rt; walked.is_alike(), "seed {seed}: {walked:?}");
        if walked.is_long() {
            long = long.saturating_add(1);
        }
    }
    assert!(rt; long >= 5, "{long} walks");
    Ok(())
}
