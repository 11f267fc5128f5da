// What the constraints of a model justify on a trail.
ghost use Rattle.std.specs.Prelude.{◌≡◌, IfOk, IfSome, IfNone};
ghost use Rattle.fzn_meaning.specs.declared.model.Model.{Model};
ghost use Rattle.fzn_meaning.specs.Solutions.{declared_sets};
ghost use Rattle.fzn_trail.specs.Levels.{NoneEmpty};
ghost use Rattle.fzn_propagator.specs.Constraints.{IsInference, IsQuiet};

use fzn_cert::Inference;
use fzn_domain::Memory;
use fzn_meaning::Model;
use fzn_trail::Trail;
use std::alloc::Global;

/// What reasons for all constraints of a model.
pub trait Constraints {
    /// The models for whose constraints it reasons.
    ghost is_for: { Self → Model → Type 0 };

    /// An inference, where some constraint has one that is asked. Where each variable has one value, all are asked. It answers `Err` where
    /// memory runs out.
    fn infer(
        &mut self,
        alloc: Global,
        model: &Model,
        trail: &Trail,
    ) -> Result<Option<Inference>, Memory>
        requires is_for { is_for self.old model.now }
        requires declared { trail.now.declared ≡ declared_sets model.now.vars }
        requires not_empty { NoneEmpty trail.now.sets }
        ensures found { IfOk result (λ found. IfSome found (IsInference model.now trail.now)) }
        ensures none { IfOk result (λ found. IfNone found (IsQuiet model.now trail.now)) }
        ensures same { is_for self.new model.now };

    /// Tells that the trail was made anew: its sets are the same, and its entries are others.
    fn renew(&mut self, model: &Model)
        requires is_for { is_for self.old model.now }
        ensures same { is_for self.new model.now };

    /// Tells that of the trail's entries that it was shown only so many, the first, are sure to stand.
    fn rewind(&mut self, model: &Model, entries: usize)
        requires is_for { is_for self.old model.now }
        ensures same { is_for self.new model.now };
}
