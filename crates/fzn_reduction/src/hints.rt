// What became of hints, and whether more are asked for.

/// Hints are asked for from the start and from each restart on, until there are no more.
#[derive(Debug, Drop)]
pub struct Hints {
    is_due: bool,
    taken: u64,
    passed_over: u64,
}

impl Hints {
    pub(crate) fn new() -> Hints {
        Hints {
            is_due: true,
            taken: 0,
            passed_over: 0,
        }
    }

    pub(crate) fn restart(&mut self) {
        self.is_due = true;
    }

    /// Whether hints are asked for.
    pub fn is_hint_due(&self) -> bool {
        self.is_due
    }

    /// There are no more hints for now.
    pub fn heed_no_more(&mut self) {
        self.is_due = false;
    }

    /// A hint was taken as a solution.
    pub fn take_hint(&mut self) {
        self.taken = self.taken.saturating_add(1);
    }

    /// A hint was passed over.
    pub fn pass_over(&mut self) {
        self.passed_over = self.passed_over.saturating_add(1);
    }

    /// How many hints were taken as solutions, at most 2^64 - 1.
    pub fn taken(&self) -> u64 {
        self.taken
    }

    /// How many hints were passed over, at most 2^64 - 1.
    pub fn passed_over(&self) -> u64 {
        self.passed_over
    }
}
