// Variables that are decided one after the other, and which of them is next.
ghost use Rattle.std.specs.Prelude.{◌≡◌, length};

use fzn_activity::{Heap, Ties, open_domain};
use fzn_domain::{Domain, Lit, Memory, VarId};
use fzn_strategy::{ValueChoice, VarChoice};
use fzn_trail::Trail;
use std::alloc::Global;
use std::num::nearest_u64_to_f64;

/// Which variable of a group is next, among those that have more than one value.
#[derive(Clone, Copy)]
pub enum Ranking {
    /// By the choice of an annotation.
    Chosen(VarChoice),
    /// The one that has the fewest values for its weight, which is one more than how many conflicts rested on it (Boussemart, Hemery,
    /// Lecoutre and Sais, Boosting systematic search by weighting constraints, 2004).
    Weighted,
}

/// A variable of a group.
#[derive(Clone, Copy)]
struct Member {
    /// Counted from 0.
    number: usize,
    /// Which of its values is tried first.
    value_choice: ValueChoice,
    /// How many conflicts rested on it, and one. Not counted but where the group goes by it.
    weight: u64,
}

/// Variables that are decided before those of the groups behind it.
#[derive(Drop)]
pub struct Group {
    /// By place.
    members: Vec<Member>,
    /// The places whose variables had more than one value when last looked at, by the ranking. Not kept where the order decides.
    open: Heap,
    ranking: Ranking,
}

impl Group {
    /// No variable yet.
    pub fn new(alloc: Global, ranking: Ranking) -> Group {
        Group {
            members: Vec::new(alloc),
            open: Heap::new(alloc),
            ranking,
        }
    }

    /// Whether there is no variable.
    pub fn is_empty(&self) -> bool {
        self.members.is_empty()
    }

    /// Adds the variable of this number, counted from 0, and answers its place.
    pub fn add(
        &mut self,
        number: usize,
        value_choice: ValueChoice,
        ties: &mut Ties,
    ) -> Result<usize, Memory> {
        let tie = ties.tie(self.members.len() as u64);
        self.members.push(Member {
            number,
            value_choice,
            weight: 1,
        })?;
        self.open.grow(tie)
    }

    /// The literal for the variable that is next, where that at this place is the first with more than one value.
    pub fn next(&mut self, trail: &Trail, vars: usize, first: usize) -> Option<Lit>
        requires { vars ≡ length trail.now.declared }
    {
        let place = match self.ranking {
            Ranking::Chosen(VarChoice::InputOrder) => first,
            _ => self.open.top()?,
        };
        let member = *self.members.get(place)?;
        let domain = open_domain(trail, vars, member.number)?;
        if domain.is_empty() {
            return None;
        }
        let var = VarId(member.number.saturating_add(1));
        Some(member.value_choice.literal(var, domain))
    }

    /// The present conflict rests on the variable at this place.
    pub fn bump(&mut self, place: usize) {
        if let Some(member) = self.members.get_mut(place) {
            member.weight = member.weight.saturating_add(1);
        }
    }

    /// The values of the variable at this place may have changed, or its weight.
    pub fn look(&mut self, trail: &Trail, vars: usize, place: usize)
        requires { vars ≡ length trail.now.declared }
    {
        if let Ranking::Chosen(VarChoice::InputOrder) = self.ranking {
            return;
        }
        let Some(member) = self.members.get(place).copied() else {
            return;
        };
        match open_domain(trail, vars, member.number) {
            Some(domain) => {
                let preferred = preferred_by(self.ranking, member, domain);
                self.open.set(place, preferred);
            }
            None => self.open.remove(place),
        }
    }
}

/// How much the ranking prefers the variable, which has these values.
fn preferred_by(ranking: Ranking, member: Member, domain: &Domain) -> f64 {
    match ranking {
        Ranking::Chosen(choice) => preference(domain, choice),
        Ranking::Weighted => {
            preference(domain, VarChoice::FirstFail) / nearest_u64_to_f64(member.weight)
        }
    }
}

/// How much the choice prefers a variable with these values. Each is a whole number that a float holds exactly.
fn preference(domain: &Domain, var_choice: VarChoice) -> f64 {
    if domain.is_empty() {
        return 0.0;
    }
    let width = domain.len().min(WIDEST) as i64;
    let whole = match var_choice {
        VarChoice::InputOrder => 0,
        VarChoice::FirstFail => -width,
        VarChoice::AntiFirstFail => width,
        VarChoice::Smallest => -domain.min(),
        VarChoice::Largest => domain.max(),
    };
    whole as f64
}

/// No domain has more values.
const WIDEST: usize = 2_000_000_001;
