// What a propagator counts between two calls.
use crate::bounds::Bounds;
use fzn_values::{Place, Term};

/// Two numbers of which the propagator that counts them says what they are: a sum has its least and its greatest value.
#[derive(Clone, Copy, Debug)]
pub struct Tally {
    /// The first of them, any number.
    pub low: i64,
    /// The second, any number.
    pub high: i64,
}

/// What a propagator begins to count with.
#[derive(Debug, Drop)]
pub struct Counting {
    /// What it counts on the declared sets.
    pub tally: Tally,
    /// By what the variables of its subscriptions count, in their order: any numbers. Those that come behind count by 0.
    pub weights: Vec<i64>,
    /// What it is, where it counts nothing and its bounds alone tell whether it has anything to say.
    pub pair: Option<Pair>,
}

/// A sum of two places that is to be at most its bound; with a switch, exactly where this term is 1.
#[derive(Clone, Copy, Debug)]
pub struct Pair {
    /// One of the places.
    pub one: Place,
    /// The other.
    pub other: Place,
    /// What the sum is compared with: from -10^9 - 1 to 10^9 + 1.
    pub bound: i64,
    /// What is 1 where the sum is at most its bound, and else 0; none where it has to be.
    pub switch: Option<Term>,
}

impl Pair {
    /// Whether nothing follows from it, where these are the bounds of the variables that are known, by their numbers less one.
    pub fn is_idle(&self, bounds: &[Option<Bounds>]) -> bool {
        let (Some(one), Some(other)) = (given_by(self.one, bounds), given_by(self.other, bounds))
        else {
            return false;
        };
        let low = one.low.wrapping_add(other.low);
        let high = one.high.wrapping_add(other.high);
        let spread = one.spread().max(other.spread());
        let rise = self.bound.saturating_sub(low);
        let fall = high.saturating_sub(self.bound);
        let Some(switch) = self.switch else {
            return spread <= rise;
        };
        match Bounds::known(bounds, switch) {
            Some(Bounds { low: 1, high: 1 }) => spread <= rise,
            Some(Bounds { low: 0, high: 0 }) => spread < fall,
            Some(_) => 0 <= rise && 0 < fall,
            None => false,
        }
    }
}

/// What the place gives at least and at most, where these bounds are known.
fn given_by(place: Place, bounds: &[Option<Bounds>]) -> Option<Bounds> {
    let Bounds { low, high } = Bounds::known(bounds, place.term)?;
    let one = place.coefficient.wrapping_mul(low);
    let other = place.coefficient.wrapping_mul(high);
    Some(Bounds {
        low: one.min(other),
        high: one.max(other),
    })
}
