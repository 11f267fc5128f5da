// How large a model may be.
use fzn_meaning::{Constraint, Goal, Model};
use fzn_moves::TableView;
use fzn_multipliers::{Rows, Work};

/// So many numbers are looked at in a round, at the most, where there is no objective: that nothing meets a row shows only after several rounds.
pub const MOST_REFUTED: usize = 6_000;

/// Whether the model has an objective, or so few numbers that a row which nothing meets may be looked for. They are counted before anything
/// is made of them, so not all of them are.
pub fn is_worth_a_look(model: &Model, rows: &Rows) -> bool {
    if !matches!(model.goal, Goal::Satisfy) {
        return true;
    }
    let mut work = Work::new(MOST_REFUTED as u64);
    if !work.take(rows.cost()) {
        return false;
    }
    for constraint in model.constraints.as_slice() {
        if !work.take(numbers_of(constraint)) {
            return false;
        }
    }
    true
}

/// How many numbers the constraint adds to those of the rows, about.
fn numbers_of(constraint: &Constraint) -> usize {
    match constraint {
        Constraint::AllDifferent { places } => squared(places.len()),
        Constraint::Circuit { successors } => squared(successors.len()),
        Constraint::Inverse { forward, .. } => squared(forward.len()),
        Constraint::Table { .. } => match TableView::of(constraint) {
            Some(table) => table.len(),
            None => 0,
        },
        _ => 0,
    }
}

fn squared(count: usize) -> usize {
    count.saturating_mul(count)
}
