// Two places of each clause are watched: it is looked at again where one of them may have become false.
ghost use Rattle.std.specs.Prelude.{◌≡◌, ◌≢◌, ◌↔◌, ◌<◌, ◌≤◌, ◌+◌, [], ◌∷◌, ◌++◌, List, length, true, Some, slice_set, IsTrue, IfOk, OnOk, OnErr, IfSome, IfNone, None};
ghost use Rattle.std.specs.Bool.{OnTrue, OnFalse};
ghost use Rattle.fzn_domain.specs.IntSet.{IntSet};
ghost use Rattle.fzn_domain.specs.Narrow.{IsVariable, IsClauseOver};
ghost use Rattle.fzn_trail.specs.Levels.{Levels, NoneEmpty, fresh};
ghost use Rattle.fzn_clauses.specs.Guard.{literal_at, IsPair, IsPossibleAt};
ghost use Rattle.fzn_clauses.specs.Held.{IsHeld, clause_of, AllHeld, held_in};
ghost use Rattle.fzn_clauses.specs.Rooted.{AreVisited, IsRooted};
ghost use Rattle.fzn_clauses.specs.Kept.{AreBelow, AreOutside, ArePassed, IsLast, IsSatisfiedAt, KeepsRewound, KeepsRuns, KeepsRunning, KeepsWatching, LooksAt, Sweeps, Visits, VisitsAll, VisitsEntry};
ghost use Rattle.fzn_clauses.specs.Propagation.{IsPropagated, IsConflict, AllSettled};
ghost use Rattle.fzn_clauses.specs.Watched.{watched_at, removed, added};
ghost use Rattle.fzn_clauses.specs.Watching.{held_by, IsAt, IsOn, IsTidy, IsEnlistedAt, Enlists, Lengthens, IsRewatched, IsReady, IsRewound, IsRising, IsWatching, AreVariables, Ran, Settles, set_at_mark, start_of};
ghost use Rattle.fzn_clauses.specs.Keys.{key_at, IsOutside};
ghost use Rattle.fzn_clauses.specs.Lists.{list_at, AreLonger};
ghost use Rattle.fzn_clauses.specs.declared.clauses.Look.TheVariants.{Conflict};
ghost use Rattle.fzn_clauses.specs.declared.clauses.Visit.TheVariants.{Refuted, Leaves};
ghost use Rattle.fzn_clauses.specs.Looks.{IsForced, LooksAs};

use crate::arena::{Arena, Pair};
use crate::keys::{PLACES, key_at, key_of, operator_at};
use crate::lists::{Lists, Watcher};
use crate::state::{
    ClauseState, Fallen, can_fail, fallen_numbers, is_certain, may_have_fallen, next_place,
    state_of,
};
use fzn_domain::{Lit, Memory, VarId};
use fzn_trail::{Antecedent, ClauseId, Reason, Trail};
use std::alloc::Global;

/// A clause that had one possible literal when it was looked at, after the visits of this many entries.
#[derive(Clone, Copy, Debug)]
struct Again {
    k: usize,
    entries: usize,
}

/// Levels were pushed on at most this many entries (`until`) while those from another one on (`from`) were not yet visited.
#[derive(Clone, Copy, Debug)]
struct Early {
    from: usize,
    until: usize,
}

/// No level was.
const NONE_EARLY: Early = Early {
    from: usize::MAX,
    until: 0,
};

/// What came of looking at a clause.
#[derive(Clone, Copy, Debug, PartialEq, Eq)]
enum Look {
    /// It is false.
    Conflict,
    /// One literal is possible, and true.
    One,
    /// Two literals are possible.
    Two,
}

/// What becomes of a clause in a list.
#[derive(Clone, Copy, Debug, PartialEq, Eq)]
enum Visit {
    Refuted,
    Stays,
    Leaves,
}

/// Clauses by their numbers, from 0 in the order in which they were added. Two literals of each are watched (Moskewicz, Madigan, Zhao,
/// Zhang and Malik, Chaff, 2001).
#[derive(Drop)]
pub struct Clauses {
    arena: Arena,
    lists: Lists,
    pending: Vec<usize>,
    again: Vec<Again>,
    early: Early,
    looked: u64,
}

impl Clauses {
    /// No clause is held.
    pub fn new(alloc: Global) -> Clauses
        ensures none { held_by result ≡ [] }
        ensures watching { (declared : List IntSet) → IsWatching result (fresh declared) }
    {
        Clauses {
            arena: Arena::new(alloc),
            lists: Lists::new(alloc),
            pending: Vec::new(alloc),
            again: Vec::new(alloc),
            early: NONE_EARLY,
            looked: 0,
        }
    }

    /// Holds one more clause. It answers `Err` where memory runs out, and the clauses are as before.
    pub fn add(&mut self, clause: &[Lit]) -> Result<ClauseId, Memory>
        ensures ok { OnOk result (held_by self.new ≡ held_by self.old ++ Some clause.now ∷ []) }
        ensures id { IfOk result (λ id. id.0 ≡ length (held_by self.old)) }
        ensures err { OnErr result (held_by self.new ≡ held_by self.old) }
        ensures watching { KeepsWatching self.old self.new }
    {
        let k = self.arena.len();
        self.pending.push(k)?;
        self.arena.add(clause)?;
        Ok(ClauseId(k as u64))
    }

    /// Holds a clause under the number of one that was taken out. It answers `Err` where memory runs out, and the clauses are as before.
    pub fn put(&mut self, id: ClauseId, clause: &[Lit]) -> Result<(), Memory>
        requires in_range { id.0 < length (held_by self.old) }
        requires free { IsHeld (held_by self.old) id → ⊥ }
        ensures ok { OnOk result (held_by self.new ≡ slice_set (held_by self.old) id.0 (Some clause.now)) }
        ensures err { OnErr result (held_by self.new ≡ held_by self.old) }
        ensures watching { KeepsWatching self.old self.new }
    {
        let k = id.0 as usize;
        self.pending.push(k)?;
        self.arena.put(k, clause)?;
        Ok(())
    }

    /// Takes out the clause of this number alone. No other number changes.
    pub fn remove(&mut self, id: ClauseId)
        requires { IsHeld (held_by self.old) id }
        ensures held { held_by self.new ≡ slice_set (held_by self.old) id.0 None }
        ensures watching { KeepsWatching self.old self.new }
    {
        self.arena.remove(id.0 as usize);
    }

    /// Takes what is left of clauses that were taken out from the lists, all of which it goes over.
    pub fn sweep(&mut self)
        ensures held { held_by self.new ≡ held_by self.old }
        ensures watching { KeepsWatching self.old self.new }
    {
        for key in 0..self.lists.count() {
            self.sweep_list(key);
        }
    }

    /// All clauses are to be looked at, whatever the trail of the next call is, which may be another one. It answers `Err` where memory runs
    /// out, and the clauses are watched on the trail of the last call as before.
    pub fn look_at_all(&mut self) -> Result<(), Memory>
        ensures held { held_by self.new ≡ held_by self.old }
        ensures watching { KeepsWatching self.old self.new }
        ensures anew { OnOk result ((trail other : Levels) → IsWatching self.old trail → IsRooted other → IsWatching self.new other) }
    {
        for k in 0..self.arena.len() {
            self.pending.push(k)?;
        }
        self.again.clear();
        self.early = NONE_EARLY;
        Ok(())
    }

    /// Asserts what the clause of this number alone forces, if it forces a literal. It answers `Err` where memory runs out, and the trail is
    /// as before.
    pub fn apply(&self, id: ClauseId, trail: &mut Trail) -> Result<(), Memory>
        requires held { IsHeld (held_by self.now) id }
        requires over { AllHeld (IsClauseOver (length trail.old.declared)) (held_by self.now) }
        requires not_empty { NoneEmpty trail.old.sets }
        requires watching { IsWatching self.now trail.old }
        ensures propagated { IsPropagated (held_by self.now) trail.old trail.new }
        ensures left { NoneEmpty trail.new.sets }
        ensures watching { IsWatching self.now trail.new }
    {
        let k = id.0 as usize;
        match state_of(self.arena.clause(k), self.arena.slot(k).pair, trail) {
            ClauseState::One(place) => {
                let lit = self.arena.clause(k)[place];
                force(lit, id, trail)?;
                Ok(())
            }
            _ => Ok(()),
        }
    }

    /// The clause of this number.
    pub fn clause(&self, id: ClauseId) -> &[Lit]
        requires { IsHeld (held_by self.now) id }
        ensures { result.now ≡ clause_of (held_by self.now) id }
    {
        self.arena.clause(id.0 as usize)
    }

    /// Whether the clause of this number was added and not taken out.
    pub fn is_held(&self, id: ClauseId) -> bool
        ensures { IsTrue result ↔ IsHeld (held_by self.now) id }
    {
        let k = id.0 as usize;
        k < self.arena.len() && self.arena.slot(k).live
    }

    /// How many clauses were added.
    pub fn len(&self) -> usize
        ensures { result ≡ length (held_by self.now) }
    {
        self.arena.len()
    }

    /// How many times the literals of a clause were read by `propagate`; it stays at 2^64 - 1 once it is there.
    pub fn looked(&self) -> u64 {
        self.looked
    }

    /// Asserts what the clauses force, until one is false, which is given, or none forces a literal. The trail is that of the last
    /// call, or at first a new one; since then levels may have been pushed and gone back to and literals asserted. After an error,
    /// for want of memory, what was asserted stands, and the next call goes on from there.
    pub fn propagate(&mut self, trail: &mut Trail) -> Result<Option<ClauseId>, Memory>
        requires over { AllHeld (IsClauseOver (length trail.old.declared)) (held_by self.old) }
        requires not_empty { NoneEmpty trail.old.sets }
        requires watching { IsWatching self.old trail.old }

        // With and without an error.
        ensures same { held_by self.new ≡ held_by self.old }
        ensures propagated { IsPropagated (held_by self.old) trail.old trail.new }
        ensures left { NoneEmpty trail.new.sets }
        ensures watching { IsWatching self.new trail.new }

        ensures none { IfOk result (λ id. IfNone id (AllSettled (held_by self.old) trail.new.sets)) }
        ensures seen { IfOk result (λ id. IfNone id (trail.new.mark ≡ length trail.new.entries)) }
        ensures conflict { IfOk result (λ id. IfSome id (IsConflict (held_by self.old) trail.new.sets)) }
    {
        self.resume(trail)?;
        if let Some(k) = self.look_at_pending(trail)? {
            return Ok(Some(ClauseId(k as u64)));
        }
        match self.go_over_entries(trail)? {
            Some(k) => Ok(Some(ClauseId(k as u64))),
            None => Ok(None),
        }
    }

    /// Goes to the entry from which on the trail is to be visited, and takes back what was put aside behind it.
    fn resume(&mut self, trail: &mut Trail) -> Result<(), Memory>
        requires { IsWatching self.old trail.old }
        ensures same { self.new.arena ≡ self.old.arena }
        ensures moved { trail.new ≡ record trail.old { mark = trail.new.mark } }
        ensures rewound { IsRewound self.new trail.new }
        ensures low { OnOk result (AreBelow trail.new.mark self.new.again.items) }
    {
        self.rewind(trail);
        self.note_early(trail);
        self.unwind(trail.seen())
    }

    /// Moves the mark back where the trail was cut back to a level that was pushed before all of its entries were visited.
    fn rewind(&mut self, trail: &mut Trail)
        requires { IsWatching self.old trail.old }
        ensures same { self.new.arena ≡ self.old.arena }
        ensures moved { trail.new ≡ record trail.old { mark = trail.new.mark } }
        ensures watching { IsWatching self.new trail.new }
        ensures start { start_of self.new.early trail.new.mark ≡ trail.new.mark }
    {
        let mark = trail.seen();
        if mark <= self.early.until {
            trail.see(mark.min(self.early.from));
            self.early = NONE_EARLY;
        }
    }

    /// Notes that levels were pushed before all of their entries were visited, if some were.
    fn note_early(&mut self, trail: &Trail)
        requires watching { IsWatching self.old trail.now }
        requires start { start_of self.old.early trail.now.mark ≡ trail.now.mark }
        ensures same { self.new.arena ≡ self.old.arena }
        ensures rewound { IsRewound self.new trail.now }
    {
        if !is_early(trail) {
            return;
        }
        self.early = Early {
            from: self.early.from.min(trail.seen()),
            until: trail.len(),
        };
    }

    /// What was looked at after the visits of as many entries, or more, is to be looked at again.
    fn unwind(&mut self, entries: usize) -> Result<(), Memory>
        ensures arena { self.new.arena ≡ self.old.arena }
        ensures keeps { KeepsRewound self.old self.new }
        ensures low { OnOk result (IsRising self.old.again.items → AreBelow entries self.new.again.items) }
    {
        while let Some(last) = self.last_again() {
            if last.entries < entries {
                return Ok(());
            }
            self.pending.push(last.k)?;
            self.again.pop();
        }
        Ok(())
    }

    fn last_again(&self) -> Option<Again>
        ensures found { IfSome result (λ last. IsLast last self.now.again.items) }
        ensures none { IfNone result (length self.now.again.items ≡ 0) }
    {
        let count = self.again.len();
        if count == 0 {
            None
        } else {
            Some(self.again[count - 1])
        }
    }

    /// Looks at each clause that is to be looked at.
    fn look_at_pending(&mut self, trail: &mut Trail) -> Result<Option<usize>, Memory>
        requires { IsReady self.old trail.old }
        ensures ran { Ran self.old self.new trail.old trail.new }
        ensures ready { IsReady self.new trail.new }
        ensures conflict { IfOk result (λ found. IfSome found (λ k. IsConflict (held_by self.old) trail.new.sets (record { 0 = k }))) }
        ensures keeps { KeepsRuns self.old self.new trail.old trail.new }
        ensures none { IfOk result (λ found. IfNone found (length self.new.pending.items ≡ 0)) }
    {
        while self.pending.len() > 0 {
            let k = self.pending[self.pending.len() - 1];
            if self.look(k, trail)? {
                return Ok(Some(k));
            }
            self.pending.pop();
        }
        Ok(None)
    }

    /// Looks at a clause, if it is held, and says whether it is false.
    fn look(&mut self, k: usize, trail: &mut Trail) -> Result<bool, Memory>
        requires { IsReady self.old trail.old }
        ensures ran { Ran self.old self.new trail.old trail.new }
        ensures ready { IsReady self.new trail.new }
        ensures conflict { IfOk result (λ found. IsTrue found → IsConflict (held_by self.old) trail.new.sets (record { 0 = k })) }
        ensures pending { OnOk result (self.new.pending ≡ self.old.pending) }
        ensures keeps { KeepsRuns self.old self.new trail.old trail.new }
        ensures past { IfOk result (λ found. OnFalse found (LooksAt k self.old self.new trail.old trail.new)) }
    {
        if k >= self.arena.len() || !self.arena.slot(k).live {
            return Ok(false);
        }
        match self.settle(k, trail)? {
            Look::Conflict => Ok(true),
            Look::One => {
                let again = Again {
                    k,
                    entries: trail.seen(),
                };
                self.again.push(again)?;
                Ok(false)
            }
            Look::Two => Ok(false),
        }
    }

    /// Visits the lists of each entry from the mark on.
    fn go_over_entries(&mut self, trail: &mut Trail) -> Result<Option<usize>, Memory>
        requires ready { IsReady self.old trail.old }
        requires variables { AreVariables trail.old.mark trail.old }
        ensures ran { Ran self.old self.new trail.old trail.new }
        ensures ready { IsReady self.new trail.new }
        ensures conflict { IfOk result (λ found. IfSome found (λ k. IsConflict (held_by self.old) trail.new.sets (record { 0 = k }))) }
        ensures keeps { KeepsRunning self.old self.new trail.old trail.new }
        ensures pending { OnOk result (self.new.pending ≡ self.old.pending) }
        ensures seen { IfOk result (λ found. IfNone found (trail.new.mark ≡ length trail.new.entries)) }
    {
        while trail.seen() < trail.len() {
            let mark = trail.seen();
            let entry = trail.entry(mark);
            if let Some(k) = self.visit_entry(entry.lit, trail)? {
                return Ok(Some(k));
            }
            trail.see(mark + 1);
        }
        Ok(None)
    }

    /// Visits the clauses that watch a literal which an entry with this one may have made false.
    fn visit_entry(&mut self, lit: Lit, trail: &mut Trail) -> Result<Option<usize>, Memory>
        requires var { IsVariable (length trail.old.declared) lit.var }
        requires next { trail.old.mark < length trail.old.entries }
        requires ready { IsReady self.old trail.old }
        ensures ran { Ran self.old self.new trail.old trail.new }
        ensures ready { IsReady self.new trail.new }
        ensures conflict { IfOk result (λ found. IfSome found (λ k. IsConflict (held_by self.old) trail.new.sets (record { 0 = k }))) }
        ensures keeps { KeepsRuns self.old self.new trail.old trail.new }
        ensures pending { OnOk result (self.new.pending ≡ self.old.pending) }
        ensures mark { OnOk result (trail.new.mark ≡ trail.old.mark) }
        ensures all { IfOk result (λ found. IfNone found (VisitsEntry (set_at_mark trail.old) lit self.old self.new trail.old trail.new)) }
    {
        let mut place = next_place(
            trail.domain_before(trail.seen()),
            trail.domain(lit.var),
            lit,
            0,
        );
        while place < PLACES {
            if let Some(k) = self.visit_all(lit, place, trail)? {
                return Ok(Some(k));
            }
            place = next_place(
                trail.domain_before(trail.seen()),
                trail.domain(lit.var),
                lit,
                place + 1,
            );
        }
        Ok(None)
    }

    /// Visits the clauses that watch a literal of this place which the entry may have made false.
    fn visit_all(
        &mut self,
        entry: Lit,
        place: usize,
        trail: &mut Trail,
    ) -> Result<Option<usize>, Memory>
        requires var { IsVariable (length trail.old.declared) entry.var }
        requires in_range { place < 18 }
        requires next { trail.old.mark < length trail.old.entries }
        requires ready { IsReady self.old trail.old }
        ensures ran { Ran self.old self.new trail.old trail.new }
        ensures ready { IsReady self.new trail.new }
        ensures conflict { IfOk result (λ found. IfSome found (λ k. IsConflict (held_by self.old) trail.new.sets (record { 0 = k }))) }
        ensures keeps { KeepsRuns self.old self.new trail.old trail.new }
        ensures pending { OnOk result (self.new.pending ≡ self.old.pending) }
        ensures mark { OnOk result (trail.new.mark ≡ trail.old.mark) }
        ensures all { IfOk result (λ found. IfNone found (VisitsAll (set_at_mark trail.old) entry (key_at entry.var place) self.old self.new trail.old trail.new)) }
    {
        let key = key_at(entry.var, place);
        let mut end = self.lists.len(key);
        while let Some(j) = self.last_fallen(entry, place, end, trail) {
            let watcher = self.lists.at(key, j);
            end = j;
            match self.visit(watcher, key, trail)? {
                Visit::Refuted => return Ok(Some(watcher.k)),
                Visit::Stays => {}
                Visit::Leaves => self.lists.take_out(key, j),
            }
        }
        Ok(None)
    }

    /// The last watcher before this one, in the list at this place of the variable, whose literal the entry may have made false, and whose
    /// clause the literal beside does not satisfy.
    #[inline(always)]
    fn last_fallen(&self, entry: Lit, place: usize, end: usize, trail: &Trail) -> Option<usize>
        requires var { IsVariable (length trail.now.declared) entry.var }
        requires in_range { place < 18 }
        requires next { trail.now.mark < length trail.now.entries }
        requires ready { IsReady self.now trail.now }
        requires within { end ≤ length (list_at self.now.lists (key_at entry.var place)) }
        ensures found { IfSome result (λ j. (j < end) × ArePassed (set_at_mark trail.now) entry self.now.arena trail.now.sets (key_at entry.var place) (list_at self.now.lists (key_at entry.var place)) (j + 1) end) }
        ensures none { IfNone result (ArePassed (set_at_mark trail.now) entry self.now.arena trail.now.sets (key_at entry.var place) (list_at self.now.lists (key_at entry.var place)) 0 end) }
    {
        if end == 0 {
            return None;
        }
        let key = key_at(entry.var, place);
        let op = operator_at(place);
        let domain = trail.domain(entry.var);
        let before = trail.domain_before(trail.seen());
        let list = self.lists.list(key);
        if let Some(fallen) = fallen_numbers(before, domain, entry, place, key) {
            return self.last_between(entry.var, place, end, fallen, trail);
        }
        let mut j = end;
        while j > 0 {
            j -= 1;
            let lit = Lit {
                var: entry.var,
                op,
                value: list[j].value,
            };
            if !may_have_fallen(before, domain, lit, entry, key) {
                continue;
            }
            if self.is_satisfied(list[j].k, lit, trail) {
                continue;
            }
            return Some(j);
        }
        None
    }

    /// The last watcher before this one, in the list at this place of the variable, whose number is one of these, and whose clause the
    /// literal beside does not satisfy.
    #[inline(always)]
    fn last_between(
        &self,
        var: VarId,
        place: usize,
        end: usize,
        fallen: Fallen,
        trail: &Trail,
    ) -> Option<usize>
        requires ready { IsReady self.now trail.now }
        requires within { end ≤ length (list_at self.now.lists (key_at var place)) }
        ensures found { IfSome result (λ j. (j < end) × AreOutside fallen self.now.arena trail.now.sets (list_at self.now.lists (key_at var place)) (j + 1) end) }
        ensures none { IfNone result (AreOutside fallen self.now.arena trail.now.sets (list_at self.now.lists (key_at var place)) 0 end) }
    {
        let list = self.lists.list(key_at(var, place));
        let op = operator_at(place);
        let mut j = end;
        while j > 0 {
            j -= 1;
            let value = list[j].value;
            if !is_among(fallen, value) {
                continue;
            }
            if self.is_satisfied(list[j].k, Lit { var, op, value }, trail) {
                continue;
            }
            return Some(j);
        }
        None
    }

    /// Whether the clause watches the literal, and the one beside is true at every value that is left.
    #[inline(always)]
    fn is_satisfied(&self, k: usize, lit: Lit, trail: &Trail) -> bool
        requires { IsReady self.now trail.now }
        ensures { OnTrue result (IsSatisfiedAt self.now.arena trail.now.sets k) }
    {
        if k >= self.arena.len() {
            return false;
        }
        let slot = self.arena.slot(k);
        if !slot.live {
            return false;
        }
        if !slot.listed {
            return false;
        }
        if slot.first == lit {
            return is_certain(slot.second, trail);
        }
        slot.second == lit && is_certain(slot.first, trail)
    }

    /// Visits a clause in the list of this key.
    #[inline(always)]
    fn visit(&mut self, watcher: Watcher, key: usize, trail: &mut Trail) -> Result<Visit, Memory>
        requires { IsReady self.old trail.old }
        ensures ran { Ran self.old self.new trail.old trail.new }
        ensures ready { IsReady self.new trail.new }
        ensures conflict { IfOk result (λ visit. visit ≡ Refuted → IsConflict (held_by self.old) trail.new.sets (record { 0 = watcher.k })) }
        ensures longer { OnOk result (AreLonger self.old.lists self.new.lists) }
        ensures leaves { IfOk result (λ visit. visit ≡ Leaves → ¬ (IsOn self.new.arena watcher key)) }
        ensures visits { IfOk result (Visits watcher key self.old self.new trail.old trail.new) }
        ensures err { OnErr result (KeepsRuns self.old self.new trail.old trail.new) }
    {
        if !self.is_watching(watcher, key) {
            return Ok(Visit::Leaves);
        }
        match self.settle(watcher.k, trail)? {
            Look::Conflict => Ok(Visit::Refuted),
            _ => {
                if self.is_watching(watcher, key) {
                    Ok(Visit::Stays)
                } else {
                    Ok(Visit::Leaves)
                }
            }
        }
    }

    fn sweep_list(&mut self, key: usize)
        ensures { Sweeps self.old self.new }
    {
        let mut j = self.lists.len(key);
        while j > 0 {
            j -= 1;
            self.sweep_place(key, j);
        }
    }

    /// Takes the watcher at this place out of the list of the key, if its clause is not held or watches another literal.
    fn sweep_place(&mut self, key: usize, j: usize)
        requires { j < length (list_at self.old.lists key) }
        ensures sweeps { Sweeps self.old self.new }
        ensures left { j ≤ length (list_at self.new.lists key) }
    {
        let found = self.lists.at(key, j);
        if self.is_watching(found, key) {
            return;
        }
        self.lists.take_out(key, j);
    }

    /// Whether the clause is held and watches the literal of this key and this value.
    #[inline(always)]
    fn is_watching(&self, watcher: Watcher, key: usize) -> bool
        ensures { IsTrue result ↔ IsOn self.now.arena watcher key }
    {
        if watcher.k >= self.arena.len() {
            return false;
        }
        let slot = self.arena.slot(watcher.k);
        slot.live
            && slot.listed
            && (is_at(slot.first, watcher, key) || is_at(slot.second, watcher, key))
    }

    /// Watches two possible literals of the clause; or asserts the one that is possible, if it is not yet true.
    #[inline(always)]
    fn settle(&mut self, k: usize, trail: &mut Trail) -> Result<Look, Memory>
        requires in_range { k < length self.old.arena }
        requires live { (watched_at self.old.arena k).live ≡ true }
        requires ready { IsReady self.old trail.old }
        ensures ok { IfOk result (LooksAs k self.old self.new trail.old trail.new) }
        ensures settled { OnOk result (Settles self.old self.new) }
        ensures keeps { KeepsRuns self.old self.new trail.old trail.new }
        ensures ran { Ran self.old self.new trail.old trail.new }
        ensures ready { IsReady self.new trail.new }
        ensures conflict { IfOk result (λ look. look ≡ Conflict → IsConflict (held_by self.old) trail.new.sets (record { 0 = k })) }
    {
        self.looked = self.looked.saturating_add(1);
        let pair = self.arena.slot(k).pair;
        let clause = self.arena.clause(k);
        match state_of(clause, pair, trail) {
            ClauseState::Conflict => Ok(Look::Conflict),
            ClauseState::Two(pair) => {
                self.watch(k, pair)?;
                Ok(Look::Two)
            }
            ClauseState::One(place) => {
                let lit = clause[place];
                self.watch(k, with_one(pair, place))?;
                force(lit, ClauseId(k as u64), trail)?;
                Ok(Look::One)
            }
        }
    }

    /// Watches these two places of the clause.
    fn watch(&mut self, k: usize, pair: Pair) -> Result<(), Memory>
        requires in_range { k < length self.old.arena }
        requires tidy { IsTidy self.old.arena self.old.lists }
        requires fits { IsPair (watched_at self.old.arena k).clause pair }
        ensures ok { OnOk result (IsRewatched k pair self.old self.new) }
        ensures err { OnErr result (Lengthens self.old self.new) }
    {
        if self.is_watched(k, pair) {
            return Ok(());
        }
        self.enlist(k, pair.first)?;
        self.enlist(k, pair.second)?;
        self.arena.watch(k, pair);
        Ok(())
    }

    /// Whether the clause watches these two places, in this order.
    #[inline(always)]
    fn is_watched(&self, k: usize, pair: Pair) -> bool
        requires in_range { k < length self.now.arena }
        requires tidy { IsTidy self.now.arena self.now.lists }
        requires fits { IsPair (watched_at self.now.arena k).clause pair }
        ensures { OnTrue result (IsRewatched k pair self.now self.now) }
    {
        let slot = self.arena.slot(k);
        slot.live && slot.listed && slot.pair == pair
    }

    /// Puts the clause into the list of its literal at this place, if it is not there yet.
    fn enlist(&mut self, k: usize, place: usize) -> Result<(), Memory>
        requires in_range { k < length self.old.arena }
        requires tidy { IsTidy self.old.arena self.old.lists }
        requires fits { place < length (watched_at self.old.arena k).clause }
        ensures ok { OnOk result (Enlists k (literal_at (watched_at self.old.arena k).clause place) self.old self.new) }
        ensures err { OnErr result (Lengthens self.old self.new) }
    {
        if self.is_enlisted(k, place) {
            return Ok(());
        }
        let lit = self.arena.clause(k)[place];
        let watcher = Watcher {
            k,
            value: lit.value,
        };
        self.lists.push(key_of(lit), watcher)?;
        Ok(())
    }

    /// Whether the clause watches this place, and so is in the list of the literal there.
    #[inline(always)]
    fn is_enlisted(&self, k: usize, place: usize) -> bool
        requires in_range { k < length self.now.arena }
        requires tidy { IsTidy self.now.arena self.now.lists }
        ensures { OnTrue result (IsEnlistedAt self.now.lists k (literal_at (watched_at self.now.arena k).clause place)) }
    {
        let slot = self.arena.slot(k);
        let listed = slot.live && slot.listed;
        listed && (place == slot.pair.first || place == slot.pair.second)
    }
}

/// Whether the number is one of these.
fn is_among(fallen: Fallen, value: i64) -> bool
    ensures { OnFalse result (IsOutside fallen value) }
{
    fallen.from <= value && value < fallen.until
}

/// Whether a level was pushed before all entries below it were visited.
fn is_early(trail: &Trail) -> bool
    requires { IsRooted trail.now }
    ensures { OnFalse result (AreVisited trail.now) }
{
    let mark = trail.seen();
    mark < trail.len() && trail.entry(mark).level < trail.level()
}

/// Whether the literal has the value of the watcher and stands in the list of this key.
fn is_at(lit: Lit, watcher: Watcher, key: usize) -> bool
    ensures { IsTrue result ↔ IsAt lit watcher.value key }
{
    lit.value == watcher.value && key_of(lit) == key
}

/// Asserts the literal, if it is not yet true.
fn force(lit: Lit, id: ClauseId, trail: &mut Trail) -> Result<(), Memory>
    requires var { IsVariable (length trail.old.declared) lit.var }
    requires not_empty { NoneEmpty trail.old.sets }
    ensures ok { OnOk result (IsForced lit id trail.old trail.new) }
    ensures one_each { length trail.old.sets ≡ length trail.old.declared }
    ensures err { OnErr result (trail.new ≡ trail.old) }
{
    if can_fail(trail.domain(lit.var), lit) {
        trail.assert(lit, Reason::Implied(Antecedent::Clause(id)))?;
    }
    Ok(())
}

/// The place, and one of the watched two beside it.
fn with_one(pair: Pair, place: usize) -> Pair
    ensures place { result.first ≡ place }
    ensures same { pair.first ≡ place → result.second ≡ pair.second }
    ensures other { pair.first ≢ place → result.second ≡ pair.first }
{
    let second = if pair.first == place {
        pair.second
    } else {
        pair.first
    };
    Pair {
        first: place,
        second,
    }
}
