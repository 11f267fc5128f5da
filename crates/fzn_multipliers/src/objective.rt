// What is minimised or maximised.
use fzn_meaning::{Goal, Model};

/// The variable that is minimised or maximised.
#[derive(Clone, Copy, Debug)]
pub struct Objective {
    /// Its number, less one.
    pub variable: usize,
    /// 1 where it is minimised, and -1 where it is maximised.
    pub sign: i64,
}

impl Objective {
    /// That of the model, where it has one.
    pub fn of(model: &Model) -> Option<Objective> {
        let (var, sign) = match model.goal {
            Goal::Satisfy => return None,
            Goal::Minimize(var) => (var, 1),
            Goal::Maximize(var) => (var, -1),
        };
        Some(Objective {
            variable: var.0.saturating_sub(1),
            sign,
        })
    }
}
