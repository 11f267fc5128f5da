// Whether a sum has so much room that nothing follows from it, by its ends as they are counted. It only chooses: nothing is promised of it.
use crate::form::SumForm;
use fzn_list::Items;
use fzn_meaning::{Comparison, Var};
use fzn_propagator::{Bounds, Shift, Tally};
use fzn_values::{Place, Term};

/// A sum without a switch is counted where so many places may give their most, each as wide as any but the widest. Where an equation has
/// less room, or says what one of its places is, it is asked at nearly every change anyway.
const AT_MOST_PLACES: i64 = 2;

const EQUAL_PLACES: i64 = 4;

/// What the places of a sum may give on the declared sets.
#[derive(Clone, Copy, Debug)]
pub struct Room {
    /// The least and the greatest value of the sum.
    ends: Tally,
    /// The place that may give more above its least than any other. `None` where two may give as much.
    widest: Option<Place>,
    /// The most that any other place may give above its least.
    spread: i64,
}

impl Room {
    /// That of the form, whose terms are among these variables: `None` where the sum may become too large for the numbers here, or where it
    /// never has room.
    pub fn new(form: &SumForm, vars: &Items<Var>) -> Option<Room> {
        let mut room = Room {
            ends: Tally { low: 0, high: 0 },
            widest: None,
            spread: 0,
        };
        let mut most = 0;
        for place in form.places.as_slice() {
            most = room.add(*place, declared(vars, place.term)?, most)?;
        }
        if room.spread == most {
            room.widest = None;
        }
        if room.may_last(form) {
            Some(room)
        } else {
            None
        }
    }

    /// One more place. It is given how much the widest place may give above its least, and answers the same of all.
    fn add(&mut self, place: Place, bounds: Bounds, most: i64) -> Option<i64> {
        let one = place.coefficient.checked_mul(bounds.low)?;
        let other = place.coefficient.checked_mul(bounds.high)?;
        self.ends.low = self.ends.low.checked_add(one.min(other))?;
        self.ends.high = self.ends.high.checked_add(one.max(other))?;
        let spread = one.max(other).checked_sub(one.min(other))?;
        if spread <= most {
            self.spread = self.spread.max(spread);
            return Some(most);
        }
        self.spread = most;
        self.widest = Some(place);
        Some(spread)
    }

    /// Whether the sum may have room for long. Without a switch that is seen at the beginning, since bounds only close in.
    fn may_last(&self, form: &SumForm) -> bool {
        let (rise, fall) = (rise(form, self.ends), fall(form, self.ends));
        match (form.switch, form.comparison) {
            (Some(_), _) => true,
            (None, Comparison::AtMost) => self.spread_of_each(AT_MOST_PLACES) <= rise,
            (None, Comparison::Equal) => {
                self.spread <= rise.min(fall) && self.spread_of_each(EQUAL_PLACES) <= rise.max(fall)
            }
            (None, Comparison::NotEqual) => false, // A pass finds soon that two places are open.
        }
    }

    /// What so many places may give above their least, of which none is the widest.
    fn spread_of_each(&self, places: i64) -> i64 {
        self.spread.saturating_mul(places)
    }

    /// The ends of the sum on the declared sets.
    pub fn ends(&self) -> Tally {
        self.ends
    }

    /// Whether nothing follows from the sum of the form, where these are its ends and the bounds of the variables that are known, by their
    /// numbers less one. Without a switch only the least value of a sum that is at most its bound counts, since its propagator waits for no
    /// other change.
    pub fn is_left(&self, form: &SumForm, ends: Tally, bounds: &[Option<Bounds>]) -> bool {
        let spread = match self.widest {
            Some(place) => self.spread.max(spread_of(place, bounds)),
            None => self.spread,
        };
        match form.switch {
            Some(switch) => is_left_under(form, ends, Bounds::known(bounds, switch), spread),
            None => is_left_on(form, ends, spread),
        }
    }
}

/// The ends of a sum, once the bounds of a place with this coefficient have moved so.
pub fn moved(ends: Tally, coefficient: i64, shift: Shift) -> Tally {
    let low = coefficient.wrapping_mul(shift.low);
    let high = coefficient.wrapping_mul(shift.high);
    let (least, greatest) = if coefficient < 0 {
        (high, low)
    } else {
        (low, high)
    };
    Tally {
        low: ends.low.wrapping_add(least),
        high: ends.high.wrapping_add(greatest),
    }
}

/// Whether nothing follows where the switch has these bounds, and any one place may give at most so much above its least.
fn is_left_under(form: &SumForm, ends: Tally, switch: Option<Bounds>, spread: i64) -> bool {
    match switch {
        Some(Bounds { low: 0, high: 0 }) => fails(form, ends) || is_left_off(form, ends, spread),
        Some(Bounds { low: 1, high: 1 }) => holds(form, ends) || is_left_on(form, ends, spread),
        Some(_) => !holds(form, ends) && !fails(form, ends),
        None => false,
    }
}

/// Whether the sum compares so, whatever its variables are.
fn holds(form: &SumForm, ends: Tally) -> bool {
    match form.comparison {
        Comparison::AtMost => ends.high <= form.bound,
        Comparison::Equal => ends.low == form.bound && ends.high == form.bound,
        Comparison::NotEqual => is_beside(form, ends),
    }
}

/// Whether the sum does not compare so, whatever its variables are.
fn fails(form: &SumForm, ends: Tally) -> bool {
    match form.comparison {
        Comparison::AtMost => form.bound < ends.low,
        Comparison::Equal => is_beside(form, ends),
        Comparison::NotEqual => ends.low == form.bound && ends.high == form.bound,
    }
}

/// Whether the bound is none of the sum's values.
fn is_beside(form: &SumForm, ends: Tally) -> bool {
    form.bound < ends.low || ends.high < form.bound
}

/// Whether nothing follows where the sum has to compare so, and any one place may give at most so much above its least.
fn is_left_on(form: &SumForm, ends: Tally, spread: i64) -> bool {
    match form.comparison {
        Comparison::AtMost => spread <= rise(form, ends),
        Comparison::Equal => spread <= rise(form, ends) && spread <= fall(form, ends),
        Comparison::NotEqual => has_two_open(ends, spread),
    }
}

/// The same where the sum must not compare so.
fn is_left_off(form: &SumForm, ends: Tally, spread: i64) -> bool {
    match form.comparison {
        Comparison::AtMost => spread < fall(form, ends),
        Comparison::Equal => has_two_open(ends, spread),
        Comparison::NotEqual => spread <= rise(form, ends) && spread <= fall(form, ends),
    }
}

/// How far the sum may rise from its least to the bound.
fn rise(form: &SumForm, ends: Tally) -> i64 {
    form.bound.saturating_sub(ends.low)
}

/// How far the sum may fall from its greatest to the bound.
fn fall(form: &SumForm, ends: Tally) -> i64 {
    ends.high.saturating_sub(form.bound)
}

/// Whether two places are open, since one alone does not give so much above its least.
fn has_two_open(ends: Tally, spread: i64) -> bool {
    spread < ends.high.saturating_sub(ends.low)
}

/// The bounds of a term on the declared sets.
fn declared(vars: &Items<Var>, term: Term) -> Option<Bounds> {
    match term {
        Term::Constant(value) => Some(Bounds::at(value)),
        Term::Variable(var) => {
            let var = vars.as_slice().get(var.0.wrapping_sub(1))?;
            Some(Bounds::of(&var.domain))
        }
    }
}

/// How much the place may give above its least.
fn spread_of(place: Place, bounds: &[Option<Bounds>]) -> i64 {
    match Bounds::known(bounds, place.term) {
        Some(bounds) => place
            .coefficient
            .wrapping_mul(bounds.spread())
            .wrapping_abs(),
        None => i64::MAX,
    }
}
