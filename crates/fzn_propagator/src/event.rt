// How the set of a variable changes, and which changes an event stands for.
ghost use Rattle.std.specs.Prelude.{◌≡◌, ◌<◌};
ghost use Rattle.std.specs.Ordering.{int_eq};
ghost use Rattle.fzn_domain.specs.IntSet.{size, least, greatest};
ghost use Rattle.fzn_propagator.specs.Events.{change_between, is_among};

use fzn_domain::Domain;

/// What became of a set: some value went, and moreover any of these.
#[derive(Clone, Copy, Debug, PartialEq, Eq)]
pub struct Change {
    /// The least value rose.
    pub low: bool,
    /// The greatest value fell.
    pub high: bool,
    /// One value is left, or none.
    pub fixed: bool,
}

/// Changes of a set that can give a propagator something new.
#[derive(Clone, Copy, Debug, PartialEq, Eq)]
pub enum Event {
    /// Some value goes.
    Any,
    /// Either bound moves.
    Bound,
    /// The least value rises.
    Low,
    /// The greatest value falls.
    High,
    /// One value is left.
    Fixed,
}

impl Change {
    /// From a set to what is left of it. Where either has no value, all is said to have changed.
    pub fn between(before: &Domain, present: &Domain) -> Change
        ensures { result ≡ change_between before.now present.now }
    {
        if present.is_empty() || before.is_empty() {
            return Change {
                low: true,
                high: true,
                fixed: true,
            };
        }
        Change {
            low: !is_low_same(before, present),
            high: !is_high_same(before, present),
            fixed: is_single(present),
        }
    }
}

fn is_low_same(before: &Domain, present: &Domain) -> bool
    requires before { 0 < size before.now }
    requires present { 0 < size present.now }
    ensures { result ≡ int_eq (least present.now) (least before.now) }
{
    present.min() == before.min()
}

fn is_high_same(before: &Domain, present: &Domain) -> bool
    requires before { 0 < size before.now }
    requires present { 0 < size present.now }
    ensures { result ≡ int_eq (greatest present.now) (greatest before.now) }
{
    present.max() == before.max()
}

fn is_single(set: &Domain) -> bool
    requires { 0 < size set.now }
    ensures { result ≡ int_eq (least set.now) (greatest set.now) }
{
    set.min() == set.max()
}

impl Event {
    /// Whether the change is one of these.
    pub fn is(self, change: Change) -> bool
        ensures { result ≡ is_among self change }
    {
        match self {
            Event::Any => true,
            Event::Bound => change.low || change.high,
            Event::Low => change.low,
            Event::High => change.high,
            Event::Fixed => change.fixed,
        }
    }
}
