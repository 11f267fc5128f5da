// The bounds of a variable, and how far they move.
ghost use Rattle.std.specs.Prelude.{◌≡◌, ◌<◌};
ghost use Rattle.fzn_domain.specs.IntSet.{size, least, greatest};

use crate::event::Change;
use fzn_domain::Domain;
use fzn_values::Term;

/// The least and the greatest value of a variable.
#[derive(Clone, Copy, Debug)]
pub struct Bounds {
    /// The least value: from -10^9 to 10^9.
    pub low: i64,
    /// The greatest value: from `low` to 10^9.
    pub high: i64,
}

/// What is added to the bounds of a variable.
#[derive(Clone, Copy, Debug)]
pub struct Shift {
    /// What the least value rises by: from 0 to 2 * 10^9, and less than 0 where it goes back.
    pub low: i64,
    /// What is added to the greatest value: from -2 * 10^9 to 0, and more than 0 where it goes back.
    pub high: i64,
}

impl Bounds {
    /// Those of a set. Of an empty one they are of no matter.
    pub fn of(domain: &Domain) -> Bounds
        ensures low { 0 < size domain.now → result.low ≡ least domain.now }
        ensures high { 0 < size domain.now → result.high ≡ greatest domain.now }
    {
        if domain.is_empty() {
            return Bounds { low: 0, high: 0 };
        }
        Bounds {
            low: domain.min(),
            high: domain.max(),
        }
    }

    /// Both are this value.
    pub fn at(value: i64) -> Bounds
        ensures low { result.low ≡ value }
        ensures high { result.high ≡ value }
    {
        Bounds {
            low: value,
            high: value,
        }
    }

    /// Those of a term, where these are known of the variables, by their numbers less one.
    pub fn known(bounds: &[Option<Bounds>], term: Term) -> Option<Bounds> {
        match term {
            Term::Constant(value) => Some(Bounds::at(value)),
            Term::Variable(var) => bounds.get(var.0.wrapping_sub(1)).copied().flatten(),
        }
    }

    /// How far the greatest value lies above the least.
    pub fn spread(self) -> i64 {
        self.high.wrapping_sub(self.low)
    }

    /// What is added to them to become others.
    pub fn shift_to(self, others: Bounds) -> Shift {
        Shift {
            low: others.low.wrapping_sub(self.low),
            high: others.high.wrapping_sub(self.high),
        }
    }
}

impl Shift {
    /// Neither of them moves.
    pub fn none() -> Shift {
        Shift { low: 0, high: 0 }
    }

    /// Whether neither of them moves.
    pub fn is_none(self) -> bool {
        self.low == 0 && self.high == 0
    }

    /// Which of the bounds it moves.
    pub fn change(self) -> Change {
        Change {
            low: self.low != 0,
            high: self.high != 0,
            fixed: false,
        }
    }
}
