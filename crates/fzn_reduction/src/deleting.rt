// When steps are deleted.
use fzn_strategy::{Learn, Parameters};

/// When steps of the certificate are deleted: once many are written since, and after restarts that forget clauses.
#[derive(Debug, Drop)]
pub struct Deleting {
    /// What is learned: in plain learning no step is ever deleted.
    learn: Learn,
    /// Whether clauses were forgotten since steps were deleted last.
    has_forgotten: bool,
    /// With how many steps that are not deleted some are.
    next: usize,
    /// How many steps beyond those in use are written before some are deleted: as many as these, but no more than the second number, and so
    /// many more as the first.
    idle: usize,
    idle_in_use: usize,
}

impl Deleting {
    pub(crate) fn new(learn: Learn, parameters: &Parameters) -> Deleting {
        Deleting {
            learn,
            has_forgotten: false,
            next: parameters.idle_steps as usize,
            idle: parameters.idle_steps as usize,
            idle_in_use: parameters.idle_steps_in_use as usize,
        }
    }

    /// Clauses are forgotten, some or none, at a restart or between two. Where some were since steps were deleted last, a restart has steps
    /// deleted.
    pub(crate) fn forget(&mut self, some: bool, is_restart: bool) {
        self.has_forgotten |= some;
        if is_restart && self.has_forgotten {
            self.next = 0;
        }
    }

    /// Whether some of so many steps are to be deleted.
    pub(crate) fn has_many(&self, steps: usize) -> bool {
        self.learn == Learn::First && steps >= self.next
    }

    /// So many steps are in use.
    pub(crate) fn expect(&mut self, used: usize) {
        self.has_forgotten = false;
        self.next = used
            .saturating_add(used.min(self.idle_in_use))
            .saturating_add(self.idle);
    }
}
