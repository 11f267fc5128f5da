// When the search restarts.
ghost use Rattle.std.specs.Prelude.{◌≡◌, ◌+◌, ◌*◌, ◌/◌, min};

use fzn_strategy::{Parameters, hundredths};

/// The greatest number of conflicts between two restarts.
const LONGEST: u64 = 1_000_000_000_000;

/// How many conflicts come before the next restart, where this many came before the last one: so many hundredths more, rounded down, and
/// at most 10^12.
pub fn next_interval(interval: u64, growth: u64) -> u64
    ensures { result ≡ min (interval + (interval * growth) / 100) 1000000000000 }
{
    interval
        .saturating_add(hundredths(interval, growth))
        .min(LONGEST)
}

/// The conflicts up to the next restart.
#[derive(Clone, Copy, Debug)]
pub struct Restarts {
    interval: u64,
    left: u64,
    /// How many more conflicts come before each next restart, in hundredths.
    growth: u64,
}

impl Restarts {
    /// The first restart comes after so many conflicts, or the share of them that the parameters name.
    pub fn new(first: u64, parameters: &Parameters) -> Restarts {
        let interval = hundredths(first, parameters.first_restart);
        Restarts {
            interval,
            left: interval,
            growth: parameters.restart_growth,
        }
    }

    /// Counts a conflict, and answers whether a restart is due.
    pub fn count_conflict(&mut self) -> bool {
        self.left = self.left.saturating_sub(1);
        if self.left > 0 {
            return false;
        }
        self.interval = next_interval(self.interval, self.growth);
        self.left = self.interval;
        true
    }
}
