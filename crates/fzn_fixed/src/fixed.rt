// What follows where each input has one value: by the rule `fixed`.
ghost use Rattle.std.specs.Prelude.{length, IfOk, IfSome, IfNone};
ghost use Rattle.fzn_domain.specs.Narrow.{IsVariable, NoneEmpty};
ghost use Rattle.fzn_rules.specs.declared.rule.Rule.TheVariants as rule;
ghost use Rattle.fzn_propagator.specs.Clause.{IsWritable, IsJustified};
ghost use Rattle.fzn_propagator.specs.Inference.{HoldsWhereFixed};
ghost use Rattle.fzn_fixed.specs.Denial.{IsDenialOr, IsTrueOnSets};
ghost use Rattle.fzn_fixed.specs.Parts.{ArePartsReady};
ghost use Rattle.fzn_fixed.specs.Passes.{IsJustifiedByFixed, HoldsFixed, AreFixed};

use crate::demand::Demand;
use crate::image::image_of;
use crate::parts::Parts;
use crate::pass::Pass;
use fzn_domain::{Lit, Memory};
use fzn_list::Items;
use fzn_terms::are_fixed;
use fzn_trail::Trail;
use std::alloc::Global;

/// A clause by the rule `fixed`, where each input has one value: that one of them has another, or that the result is what these give. None
/// where an input has several, or where the trail says this already. It answers `Err` where memory runs out.
pub fn refute_fixed(
    alloc: Global,
    trail: &Trail,
    parts: &Parts,
) -> Result<Option<Items<Lit>>, Memory>
    requires ready { ArePartsReady (length trail.now.declared) parts.now }
    requires filled { NoneEmpty trail.now.sets }
    ensures found { IfOk result (λ found. IfSome found (IsJustified trail.now parts.now.constraint rule.Fixed)) }
    ensures none { IfOk result (λ found. IfNone found (HoldsWhereFixed trail.now parts.now.constraint)) }
{
    Pass::new(alloc, trail, parts).refute()
}

impl<'a> Pass<'a> {
    /// The clause that an input has another value, or the result is what these give.
    fn refute(&self) -> Result<Option<Items<Lit>>, Memory>
        ensures found { IfOk result (λ found. IfSome found (IsJustifiedByFixed self.now)) }
        ensures none { IfOk result (λ found. IfNone found (HoldsFixed self.now)) }
    {
        if !are_fixed(self.trail, self.inputs) {
            return Ok(None);
        }
        let values = self.values()?;
        let image = image_of(self.constraint, values.as_slice());
        match self.demand(image) {
            Demand::Nothing => Ok(None),
            Demand::Impossible => {
                let clause = self.denial()?;
                Ok(Some(clause))
            }
            Demand::Literal(lit) => self.force(lit),
        }
    }

    /// A clause that the literal is true or some input has another value, where the trail does not say that it is true.
    fn force(&self, lit: Lit) -> Result<Option<Items<Lit>>, Memory>
        requires fixed { AreFixed self.now }
        requires variable { IsVariable (length self.now.trail.now.declared) lit.var }
        requires writable { IsWritable lit }
        ensures found { IfOk result (λ found. IfSome found (IsDenialOr self.now.trail.now self.now.inputs.now lit)) }
        ensures none { IfOk result (λ found. IfNone found (IsTrueOnSets self.now.trail.now.sets lit)) }
    {
        if self.trail.domain(lit.var).is_false(lit.negated()) {
            return Ok(None);
        }
        let mut clause = self.denial()?;
        clause.push(lit)?;
        Ok(Some(clause))
    }
}
