// Inferences are dropped on which no entry of the trail rests.
ghost use Rattle.std.specs.Prelude.{◌≡◌, ◌+◌, length};
ghost use Rattle.std.specs.List.{All};
ghost use Rattle.fzn_learned.specs.Reasoned.{IsBelow};
ghost use Rattle.fzn_state.specs.Changes.{HasDropped};

use crate::solver::Solver;
use fzn_reduction::Notes;
use fzn_trail::{Antecedent, Reason, Trail};

impl Solver {
    /// Drops inferences on which no entry rests.
    pub fn drop_inferences(&mut self)
        requires { All (λ entry. IsBelow (length self.old.inferences) entry.reason) self.old.trail.entries }
        ensures { HasDropped self.old self.new }
    {
        let len = kept_len(&self.trail, self.inferences.len(), &mut self.notes);
        self.inferences.truncate(len);
    }
}

/// How many inferences are kept, all on which entries rest among them. It goes over the trail only where enough were stacked since the
/// last time, and at level 0, whose entries are never undone: each keeps all that was stacked before what it rests on.
fn kept_len(trail: &Trail, count: usize, notes: &mut Notes) -> usize
    requires { All (λ entry. IsBelow count entry.reason) trail.now.entries }
    ensures { All (λ entry. IsBelow result entry.reason) trail.now.entries }
{
    if trail.level() > 0 && count < notes.next_cut {
        return count;
    }
    let len = stack_len(trail, count);
    notes.next_cut = len
        .saturating_add(trail.len() / notes.parameters.spare_share.max(1) as usize)
        .saturating_add(notes.parameters.spare_inferences as usize);
    len
}

/// How many inferences the entries rest on: no reason is one from this place of the stack on.
fn stack_len(trail: &Trail, count: usize) -> usize
    requires { All (λ entry. IsBelow count entry.reason) trail.now.entries }
    ensures { All (λ entry. IsBelow result entry.reason) trail.now.entries }
{
    let mut len = 0;
    for i in 0..trail.len() {
        len = len.max(place_after(trail.entry(i).reason, count));
    }
    len
}

/// The place behind the one of the inference, and the first where there is none.
fn place_after(reason: Reason, count: usize) -> usize
    requires { IsBelow count reason }
    ensures { IsBelow result reason }
{
    match reason {
        Reason::Decision => 0,
        Reason::Implied(Antecedent::Clause(_)) => 0,
        Reason::Implied(Antecedent::Inference(place)) => place + 1,
    }
}
