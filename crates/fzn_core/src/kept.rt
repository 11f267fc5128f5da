// The steps of a trimmed certificate.
ghost use Rattle.std.specs.Prelude.{◌≡◌, length, slice_get, IfOk};
ghost use Rattle.fzn_core.specs.Kept.{kept_steps};

use crate::plan::Plan;
use fzn_cert::Step;
use fzn_cert_reader::Script;
use fzn_derive::Derivation;
use fzn_domain::Memory;
use std::alloc::Global;

/// What stands in front of the steps of a trimmed certificate, and the steps, in order. These are made one by one from those of the old one,
/// which alone are held.
#[derive(Drop)]
pub struct Kept {
    /// How the head of the old certificate derives constraints; none where it has no head.
    pub derivations: Vec<Derivation>,
    /// The lines in front of the steps, where they are others than those of the old certificate.
    pub front: Option<String>,
    /// The steps of the old certificate.
    pub held: Script,
    /// What is made of them, and none where they all stay as they are.
    pub plan: Option<Plan>,
}

impl Kept {
    /// How many steps there are.
    pub fn len(&self) -> usize
        ensures { result ≡ length (kept_steps self.now) }
    {
        match &self.plan {
            None => self.held.len(),
            Some(plan) => plan.len(),
        }
    }

    /// The step at this place, counted from 0, and none behind the last. It answers `Err` where memory runs out.
    pub fn get(&self, alloc: Global, place: usize) -> Result<Option<Step>, Memory>
        ensures { IfOk result (λ found. found ≡ slice_get (kept_steps self.now) place) }
    {
        match &self.plan {
            None => self.held.get(alloc, place),
            Some(plan) => plan.get(alloc, &self.held, place),
        }
    }
}
