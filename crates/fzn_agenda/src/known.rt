// The bounds by which pairs are told to be idle.
use fzn_domain::Memory;
use fzn_propagator::Bounds;
use fzn_values::Term;

/// Bounds that are known: those of the variables, by their numbers less one, and behind them those of constants.
#[derive(Debug, Drop)]
pub struct Known {
    bounds: Vec<Bounds>,
    /// How many of them are those of variables.
    variables: usize,
}

impl Known {
    /// These of variables.
    pub fn new(bounds: Vec<Bounds>) -> Known {
        let variables = bounds.len();
        Known { bounds, variables }
    }

    /// Those that stand here.
    #[inline(always)]
    pub fn get(&self, index: u32) -> Option<&Bounds> {
        self.bounds.get(index as usize)
    }

    /// Those of the variable of this number.
    #[inline(always)]
    pub fn of(&self, variable: usize) -> Option<&Bounds> {
        self.bounds.get(variable.wrapping_sub(1))
    }

    /// Those of the variable of this number are others.
    #[inline(always)]
    pub fn set(&mut self, variable: usize, bounds: Bounds) {
        if let Some(place) = self.bounds.get_mut(variable.wrapping_sub(1)) {
            *place = bounds;
        }
    }

    /// Where the bounds of the term stand, to which those of a constant come here: `None` where it is none of the variables. `Err` where
    /// memory runs out.
    pub fn index_of(&mut self, term: Term) -> Result<Option<u32>, Memory> {
        let index = match term {
            Term::Variable(var) => {
                let index = var.0.wrapping_sub(1);
                if self.variables <= index {
                    return Ok(None);
                }
                index
            }
            Term::Constant(value) => {
                self.bounds.push(Bounds::at(value))?;
                self.bounds.len().wrapping_sub(1)
            }
        };
        Ok(u32::try_from(index).ok())
    }
}
