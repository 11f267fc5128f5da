// What a pass of the propagator reads.
ghost use Rattle.std.specs.Prelude.{◌≡◌, ◌<◌, length};
ghost use Rattle.fzn_domain.specs.Narrow.{NoneEmpty};
ghost use Rattle.fzn_values.specs.Term.{IsTerm};
ghost use Rattle.fzn_cumulative.specs.Loads.{AreReady, AreReady-prop};

use fzn_trail::Trail;
use fzn_values::Term;
use std::alloc::Global;

/// One pass over the tasks of a cumulative, as they stand on a trail on which each present set has a value.
#[derive(Clone, Copy)]
pub(crate) struct Pass<'a> {
    pub alloc: Global,
    /// The number of the constraint, counted from 1.
    pub number: u64,
    pub trail: &'a Trail,
    /// When each task starts.
    pub starts: &'a [Term],
    /// How long it takes, from there on.
    pub durations: &'a [Term],
    /// How much it uses while it runs.
    pub uses: &'a [Term],
    /// What all that run at one time may use together.
    pub capacity: Term,
    ghost ready: { AreReady (length trail.now.declared) (record { starts = starts.now; durations = durations.now; uses = uses.now; capacity = capacity }) } by { AreReady-prop _ _ },
    ghost filled: { NoneEmpty trail.now.sets },
}

impl<'a> Pass<'a> {
    ghost use Rattle.fzn_cumulative.specs.Passes.{tasks_of};
    ghost use Rattle.fzn_cumulative.specs.Loads.{start_at, duration_at, uses_at};

    /// When the task at place k, counted from 0, starts.
    pub(crate) fn start(&self, k: usize) -> Term
        requires { k < length self.now.starts.now }
        ensures value { result ≡ start_at (tasks_of self.now) k }
        ensures fits { IsTerm (length self.now.trail.now.declared) result }
    {
        self.starts[k]
    }

    /// How long it takes.
    pub(crate) fn duration(&self, k: usize) -> Term
        requires { k < length self.now.starts.now }
        ensures value { result ≡ duration_at (tasks_of self.now) k }
        ensures fits { IsTerm (length self.now.trail.now.declared) result }
    {
        self.durations[k]
    }

    /// How much it uses while it runs.
    pub(crate) fn uses(&self, k: usize) -> Term
        requires { k < length self.now.starts.now }
        ensures value { result ≡ uses_at (tasks_of self.now) k }
        ensures fits { IsTerm (length self.now.trail.now.declared) result }
    {
        self.uses[k]
    }
}
