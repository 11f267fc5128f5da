// The bounds of variables.
use crate::numbers::divided;
use fzn_domain::{Domain, Memory};
use fzn_meaning::Model;
use std::alloc::Global;

/// The least and the greatest value of a variable.
#[derive(Clone, Copy, Debug)]
pub struct Bounds {
    /// The least value: from -10^9 to 10^9.
    pub low: i64,
    /// The greatest value: from `low` to 10^9.
    pub high: i64,
}

impl Bounds {
    /// Those of a set. Of an empty one they are of no matter.
    fn of(domain: &Domain) -> Bounds {
        if domain.is_empty() {
            return Bounds { low: 0, high: 0 };
        }
        Bounds {
            low: domain.min(),
            high: domain.max(),
        }
    }

    /// Whether nothing but 0 and 1 lies between them.
    pub fn is_boolean(self) -> bool {
        0 <= self.low && self.high <= 1
    }

    /// How far the greatest value lies above the least.
    pub fn width(self) -> i64 {
        self.high.saturating_sub(self.low)
    }

    /// The least that the number times the variable is.
    pub fn least_product(self, number: i64) -> i128 {
        let at = if number < 0 { self.high } else { self.low };
        (number as i128).wrapping_mul(at as i128)
    }

    /// The number times the variable may lie this far above its least: whether that closes the bounds in.
    pub fn cut(&mut self, number: i64, room: i64) -> bool {
        let most = divided(room, number.saturating_abs());
        if number == 0 || self.width() <= most {
            return false;
        }
        if number < 0 {
            self.low = self.high.saturating_sub(most);
        } else {
            self.high = self.low.saturating_add(most);
        }
        true
    }

    /// The greater of the two without their signs.
    pub fn magnitude(self) -> i64 {
        self.low.saturating_abs().max(self.high.saturating_abs())
    }
}

/// Those of the declared variables in order.
pub fn declared_bounds(alloc: Global, model: &Model) -> Result<Vec<Bounds>, Memory> {
    let mut declared = Vec::new(alloc);
    for var in model.vars.as_slice() {
        declared.push(Bounds::of(&var.domain))?;
    }
    Ok(declared)
}
