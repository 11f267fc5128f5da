// Places by the ends of their values.
ghost use Rattle.std.specs.Prelude.{◌≡◌, ℤ};
ghost use Rattle.fzn_intervals.specs.Full.{lies_in, is_within, is_moved};

/// The numbers from one up to another; none where the first is the greater.
#[derive(Clone, Copy, Debug, PartialEq, Eq)]
pub struct Interval {
    /// The least of them.
    pub low: i64,
    /// The greatest of them.
    pub high: i64,
}

impl Interval {
    fn has(&self, number: &i64) -> bool
        ensures { result ≡ lies_in self.now number.now }
    {
        self.low <= *number && *number <= self.high
    }
}

/// A place of a constraint, counted from 0, with the least and the greatest of its values.
#[derive(Clone, Copy, Debug)]
pub struct Ends {
    /// The place.
    pub place: usize,
    /// Its least value.
    pub low: i64,
    /// Its greatest value.
    pub high: i64,
}

impl Ends {
    /// Whether the place has several values.
    pub fn is_open(&self) -> bool {
        self.low < self.high
    }

    /// Whether the numbers from this one to the upper end are no more than the count.
    pub fn is_full_from(&self, low: i64, count: usize) -> bool {
        (self.high as i128) - (low as i128) < count as i128
    }

    /// Whether both ends lie in the interval.
    pub fn is_within(&self, interval: &Interval) -> bool
        ensures { result ≡ is_within interval.now self.now }
    {
        interval.has(&self.low) && interval.has(&self.high)
    }

    /// Whether one end lies in the interval, and the other does not.
    pub fn is_moved(&self, interval: &Interval) -> bool
        ensures { result ≡ is_moved interval.now self.now }
    {
        interval.has(&self.low) != interval.has(&self.high)
    }
}
