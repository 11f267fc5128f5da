// What was found before the trail grew, and is still worth to be handed over.
ghost use Rattle.std.specs.Prelude.{◌≡◌, IsTrue, IfSome};
ghost use Rattle.std.specs.List.{All};
ghost use Rattle.fzn_propagator.specs.Constraints.{IsInference, IsInferenceJustified};
ghost use Rattle.fzn_meaning.specs.Solutions.{declared_sets};

use fzn_cert::Inference;
use fzn_meaning::Model;
use fzn_propagator::{Findings, is_forcing};
use fzn_trail::Trail;

/// Whether it is an inference of the trail as it stands.
fn is_standing(model: &Model, trail: &Trail, inference: &Inference) -> bool
    requires declared { trail.now.declared ≡ declared_sets model.now.vars }
    requires justified { IsInferenceJustified model.now inference.now }
    ensures { IsTrue result → IsInference model.now trail.now inference.now }
{
    is_forcing(trail, inference.clause.as_slice())
}

/// The first of these whose clause is false or forces a literal. Those before it are dropped.
pub(crate) fn take_forcing(model: &Model, trail: &Trail, found: &mut Findings) -> Option<Inference>
    requires declared { trail.now.declared ≡ declared_sets model.now.vars }
    requires justified { All (IsInferenceJustified model.now) found.old }
    ensures first { IfSome result (IsInference model.now trail.now) }
    ensures justified { All (IsInferenceJustified model.now) found.new }
{
    for _ in 0..found.len() {
        let inference = found.take_first()?;
        if is_standing(model, trail, &inference) {
            return Some(inference);
        }
    }
    None
}
