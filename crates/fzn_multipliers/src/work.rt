// How much is looked at. Work is counted and not timed, so that what is found depends on the model alone.

/// How many more steps may be taken, each of which looks at one number or a few.
#[derive(Clone, Copy, Debug)]
pub struct Work {
    left: u64,
}

impl Work {
    /// So many steps.
    pub fn new(steps: u64) -> Work {
        Work { left: steps }
    }

    /// So many steps are taken. Whether there were as many; else none is left.
    pub fn take(&mut self, steps: usize) -> bool {
        match self.left.checked_sub(steps as u64) {
            Some(left) => {
                self.left = left;
                true
            }
            None => {
                self.left = 0;
                false
            }
        }
    }

    /// Whether none is left.
    pub fn is_done(self) -> bool {
        self.left == 0
    }
}
