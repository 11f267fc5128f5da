// Multipliers, which are moved by the subgradient method.

/// A multiplier of 1, while multipliers are sought.
pub const ONE: i64 = 1 << 30;

/// What a violation of 1 counts, of a row of norm 1.
const UNIT: i64 = 1024;

/// A pace of 1.
pub const PACE: i128 = 1 << 48;

/// No multiplier makes a coefficient larger while multipliers are sought.
const LARGEST: i64 = 1 << 56;

/// The multiplier of a row or the price of a value.
#[derive(Clone, Copy, Debug)]
pub struct Multiplier {
    /// What the row is multiplied with, or what the value costs: times `ONE`, and on a grid times that.
    pub number: i64,
    /// That of the best bound.
    pub best: i64,
    /// How far the sum lies above its bound where the Lagrangian is least, or how many places more than one have the value.
    pub excess: i64,
    /// No number is larger.
    most: i64,
    /// The root of the sum of the squares of its coefficients.
    norm: i64,
    /// Whether the number may lie below 0.
    is_free: bool,
    /// The direction in which it moves.
    momentum: i64,
}

impl Multiplier {
    /// The price of a value.
    pub fn price(is_free: bool) -> Multiplier {
        Multiplier {
            number: 0,
            best: 0,
            excess: 0,
            most: LARGEST,
            norm: 1,
            is_free,
            momentum: 0,
        }
    }

    /// The multiplier of a row with this greatest coefficient, and this sum of the squares of all.
    pub fn weight(is_free: bool, largest: i64, square: i64) -> Multiplier {
        Multiplier {
            most: divided(LARGEST, largest.max(1)),
            norm: square.max(1).isqrt().max(1),
            ..Multiplier::price(is_free)
        }
    }

    /// Whether the row is violated so, or may count less.
    pub fn measure(&mut self) -> bool {
        self.excess = if !self.is_free && self.number <= 0 && self.excess < 0 {
            0
        } else {
            divided(self.excess.saturating_mul(UNIT), self.norm)
        };
        self.excess != 0
    }

    /// The direction turns: the square of how far it goes.
    pub fn turn(&mut self) -> i128 {
        let before = self.momentum.saturating_mul(85) / 100;
        self.momentum = before.saturating_add(self.excess);
        (self.momentum as i128).wrapping_mul(self.momentum as i128)
    }

    /// The number moves in the direction.
    pub fn go(&mut self, pace: i128) {
        let step = pace.wrapping_mul(self.momentum as i128) / PACE;
        self.number = self
            .number
            .saturating_add(divided(narrowed(step), self.norm))
            .min(self.most)
            .max(self.most.wrapping_neg());
        if !self.is_free && self.number < 0 {
            self.number = 0;
            self.momentum = 0;
        }
    }

    /// The bound is the best so far.
    pub fn keep(&mut self) {
        self.best = self.number;
    }

    /// The number of the best bound on a grid, or 0 where it counts for less than this.
    pub fn round(&mut self, grid: i64, least: i64) {
        let size = self.best.saturating_abs().saturating_mul(self.norm);
        self.number = if size < least {
            0
        } else {
            rounded(self.best, grid)
        };
    }

    /// Back to the best bound.
    pub fn retreat(&mut self) {
        self.number = self.best;
        self.momentum = 0;
    }
}

/// A multiplier on a grid.
fn rounded(multiplier: i64, grid: i64) -> i64 {
    let half = if multiplier < 0 { -(ONE / 2) } else { ONE / 2 };
    let whole = (multiplier as i128).wrapping_mul(grid as i128);
    narrowed(whole.wrapping_add(half as i128) / ONE as i128)
}

/// The quotient by a number above 0.
fn divided(number: i64, by: i64) -> i64 {
    if by < 1 {
        return 0;
    }
    number / by
}

/// The number, or where it has more than 64 bits the nearest that has no more.
pub fn narrowed(number: i128) -> i64 {
    match i64::try_from(number) {
        Ok(number) => number,
        Err(_) if number < 0 => i64::MIN,
        Err(_) => i64::MAX,
    }
}
