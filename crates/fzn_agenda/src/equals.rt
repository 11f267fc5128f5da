// Terms that are equal exactly where a switch says so: which change of one of them can say anything new.
ghost use Rattle.std.specs.Prelude.{◌≡◌, length};

use crate::known::Known;
use fzn_domain::{Domain, Lit, Memory, Op, VarId};
use fzn_meaning::{Constraint, Relation};
use fzn_propagator::Bounds;
use fzn_trail::Trail;

/// The two terms and the switch, by where their bounds stand among those that are known.
#[derive(Clone, Copy, Debug)]
pub struct KnownEquality {
    left: u32,
    right: u32,
    switch: u32,
    /// The value of the switch where the two are to be equal: where it has the other one they are to differ.
    on: i64,
}

impl KnownEquality {
    /// `None` where the constraint is no such one. `Err` where memory runs out.
    pub fn of(constraint: &Constraint, known: &mut Known) -> Result<Option<KnownEquality>, Memory> {
        let Constraint::Compare {
            relation,
            left,
            right,
            switch: Some(switch),
        } = constraint
        else {
            return Ok(None);
        };
        let on = match relation {
            Relation::Equal => 1,
            Relation::NotEqual => 0,
            _ => return Ok(None),
        };
        let (Some(left), Some(right), Some(switch)) = (
            known.index_of(*left)?,
            known.index_of(*right)?,
            known.index_of(*switch)?,
        ) else {
            return Ok(None);
        };
        Ok(Some(KnownEquality {
            left,
            right,
            switch,
            on,
        }))
    }

    /// How it is seen from the variable of this number. `None` where that is both terms, or the switch.
    pub fn seen_from(self, variable: usize) -> Option<SeenEquality> {
        let index = variable.wrapping_sub(1);
        if self.switch as usize == index {
            return None;
        }
        let other = match (self.left as usize == index, self.right as usize == index) {
            (true, false) => self.right,
            (false, true) => self.left,
            _ => return None,
        };
        Some(SeenEquality {
            other,
            switch: self.switch,
            on: self.on,
        })
    }
}

/// A change of a variable.
#[derive(Clone, Copy)]
pub struct Change<'a> {
    /// What took values from it.
    pub lit: Lit,
    /// The set that it has now.
    pub domain: &'a Domain,
    /// The ends of that set.
    pub bounds: Bounds,
}

/// An equality as it is seen from the variable that is one of its terms.
#[derive(Clone, Copy, Debug)]
pub struct SeenEquality {
    other: u32,
    switch: u32,
    on: i64,
}

impl SeenEquality {
    /// Whether the change of the variable says nothing new.
    #[inline(always)]
    pub fn is_idle(&self, change: &Change, known: &Known, trail: &Trail, variables: usize) -> bool
        requires { variables ≡ length trail.now.declared }
    {
        let (Some(other), Some(switch)) = (known.get(self.other), known.get(self.switch)) else {
            return false;
        };
        let is_fixed = change.bounds.low == change.bounds.high;
        if switch.low == switch.high {
            // Where they are to be equal each narrows the other.
            return switch.low != self.on && !may_meet(change, *other, is_fixed);
        }
        if is_fixed {
            return false;
        }
        if other.low == other.high {
            return change.domain.contains(other.low);
        }
        matches!(change.lit.op, Op::NotEqual) && !self.may_be(change.lit.value, trail, variables)
    }

    /// Whether the other term is a variable that has this value.
    fn may_be(&self, value: i64, trail: &Trail, variables: usize) -> bool
        requires { variables ≡ length trail.now.declared }
    {
        let index = self.other as usize;
        index < variables && trail.domain(VarId(index + 1)).contains(value)
    }
}

/// Whether two terms that are to differ may have the same single value, or one of them that of the other.
fn may_meet(change: &Change, other: Bounds, is_fixed: bool) -> bool {
    if other.low == other.high {
        change.domain.contains(other.low)
    } else {
        is_fixed
    }
}
