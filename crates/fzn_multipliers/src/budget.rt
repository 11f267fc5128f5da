// How much is looked at while a bound is bettered round by round.
use crate::work::Work;

/// So many numbers are looked at while the bound is not better than what is known without it.
const WAITING_NUMBERS: u64 = 150_000;

/// So many more once it is.
const RISING_NUMBERS: u64 = 3_850_000;

/// So many more where it is worth a constraint.
const WORTHY_NUMBERS: u64 = 36_000_000;

/// How far a bound has come.
#[derive(Clone, Copy, Debug, PartialEq, Eq)]
pub enum Rise {
    /// It is no better than what is known without it.
    Waiting,
    /// It is better.
    Rising,
    /// It is so much better that it is worth a constraint.
    Worthy,
}

/// How many more rounds may be made. Where nothing is to be found, that is seen in few of them.
#[derive(Clone, Copy, Debug)]
pub struct Budget {
    work: Work,
    /// How many numbers one round looks at.
    cost: usize,
    /// How far the bound had come when there was work for more rounds last.
    stage: Rise,
}

impl Budget {
    /// For rounds that look at so many numbers each: there is work for at least so many of them.
    pub fn new(cost: usize, rounds: u64) -> Budget {
        let least = rounds.saturating_mul(cost as u64);
        Budget {
            work: Work::new(least.max(WAITING_NUMBERS)),
            cost,
            stage: Rise::Waiting,
        }
    }

    /// One more round is made. Whether there was work for it.
    pub fn take(&mut self) -> bool {
        self.work.take(self.cost)
    }

    /// The same once there is none, for a bound that has come so far.
    pub fn extend(&mut self, rise: Rise) -> bool {
        match (self.stage, rise) {
            (Rise::Waiting, Rise::Rising | Rise::Worthy) => {
                self.stage = Rise::Rising;
                self.work = Work::new(RISING_NUMBERS);
                self.take()
            }
            (Rise::Rising, Rise::Worthy) => {
                self.stage = Rise::Worthy;
                self.work = Work::new(WORTHY_NUMBERS);
                self.take()
            }
            _ => false,
        }
    }
}
