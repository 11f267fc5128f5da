// The last input that has several values: by the rule `fixed`.
ghost use Rattle.std.specs.Prelude.{◌≡◌, ◌<◌, length, List, IfOk, IfSome};
ghost use Rattle.std.specs.List.{All};
ghost use Rattle.fzn_domain.specs.IntSet.{IntSet};
ghost use Rattle.fzn_domain.specs.Limits.{IsInLimits};
ghost use Rattle.fzn_domain.specs.Narrow.{NoneEmpty};
ghost use Rattle.fzn_values.specs.Term.{IsTerm};
ghost use Rattle.fzn_builtin_rules.specs.Choices.{NoneOf};
ghost use Rattle.fzn_rules.specs.declared.rule.Rule.TheVariants as rule;
ghost use Rattle.fzn_terms.specs.Denied.{IsDenied};
ghost use Rattle.fzn_propagator.specs.Clause.{IsJustified};
ghost use Rattle.fzn_fixed.specs.Image.{Admits, IsImage};
ghost use Rattle.fzn_fixed.specs.Parts.{ArePartsReady};
ghost use Rattle.fzn_fixed.specs.Passes.{IsJustifiedByFixed};

use crate::image::{Image, image_of};
use crate::parts::Parts;
use crate::pass::Pass;
use crate::values::Values;
use fzn_domain::{Lit, Memory};
use fzn_list::Items;
use fzn_terms::{Claim, explanation_of, interval_of, is_fixed, least_of, may_be};
use fzn_trail::Trail;
use std::alloc::Global;

/// How many values are gone over at most.
const STEPS: usize = 4_096;

/// A clause that the one place with several values, an input, has not one of them, where it has few and the result is not what that one
/// gives. None elsewhere. Of its values those are looked at that are less than 4,096 above the least. It answers `Err` where memory runs
/// out.
pub fn infer_last(alloc: Global, trail: &Trail, parts: &Parts) -> Result<Option<Items<Lit>>, Memory>
    requires ready { ArePartsReady (length trail.now.declared) parts.now }
    requires filled { NoneEmpty trail.now.sets }
    ensures { IfOk result (λ found. IfSome found (IsJustified trail.now parts.now.constraint rule.Fixed)) }
{
    Pass::new(alloc, trail, parts).refute_last()
}

impl<'a> Pass<'a> {
    /// The clause that the one input with several values has not one of them.
    fn refute_last(&self) -> Result<Option<Items<Lit>>, Memory>
        ensures { IfOk result (λ found. IfSome found (IsJustifiedByFixed self.now)) }
    {
        if !self.is_settled() {
            return Ok(None);
        }
        let Some(place) = self.last_open() else {
            return Ok(None);
        };
        let ends = interval_of(self.trail, self.inputs[place]);
        for step in 0..STEPS {
            let value = ends.low + step as i64;
            if ends.high < value {
                return Ok(None);
            }
            if may_be(self.trail, self.inputs[place], &value) {
                let values = self.values_with(place, value)?;
                let image = image_of(self.constraint, values.as_slice());
                if self.is_missed(image) {
                    return self.other_values(values.as_slice(), image);
                }
            }
        }
        Ok(None)
    }

    // ---- what is found

    /// The place of the only input that has several values.
    fn last_open(&self) -> Option<usize>
        ensures { IfSome result (λ place. place < length self.now.inputs.now) }
    {
        let mut found = None;
        for k in 0..self.inputs.len() {
            if !is_fixed(self.trail, self.inputs[k]) {
                if found.is_some() {
                    return None;
                }
                found = Some(k);
            }
        }
        found
    }

    /// The least value of each input, and this value of the one at the place.
    fn values_with(&self, place: usize, value: i64) -> Result<Values, Memory>
        requires place { place < length self.now.inputs.now }
        requires value { IsInLimits value }
        ensures one_each { IfOk result (λ values. length values.items ≡ length self.now.inputs.now) }
        ensures in_limits { IfOk result (λ values. All IsInLimits values.items) }
    {
        let mut values = self.values()?;
        values[place] = value;
        Ok(values)
    }

    /// Whether there is no result, or it has one value.
    fn is_settled(&self) -> bool {
        match self.result {
            Some(term) => is_fixed(self.trail, term),
            None => true,
        }
    }

    /// Whether the trail leaves the result no value that the image admits.
    fn is_missed(&self, image: Image) -> bool {
        match (self.result, image) {
            (_, Image::Fails) => true,
            (Some(term), Image::Only(value)) => !may_be(self.trail, term, &value),
            (Some(term), Image::AllBut(value)) => {
                is_fixed(self.trail, term) && least_of(self.trail, term) == value
            }
            _ => false,
        }
    }

    // ---- what refutes

    /// The clause that some input has another value than this one, or the result has one that these values admit, which have this image.
    fn other_values(&self, values: &[i64], image: Image) -> Result<Option<Items<Lit>>, Memory>
        requires one_each { length values.now ≡ length self.now.inputs.now }
        requires in_limits { All IsInLimits values.now }
        requires image { IsImage self.now.constraint.now values.now image }
        ensures { IfOk result (λ found. IfSome found (IsJustifiedByFixed self.now)) }
    {
        let Some(claim) = self.admitted(image) else {
            return Ok(None);
        };
        let mut claims = Items::new(self.alloc);
        for k in 0..self.inputs.len() {
            claims.push(Claim::other_than(self.inputs[k], values[k]))?;
        }
        claims.push(claim)?;
        explanation_of(self.alloc, self.trail, claims.as_slice())
    }

    /// The claim that the result has a value which the image admits. Nothing where the constraint holds without a result.
    fn admitted(&self, image: Image) -> Option<Claim>
        ensures term { IfSome result (λ claim. IsTerm (length self.now.trail.now.declared) claim.term) }
        ensures none { IfSome result (λ claim. (sets : List IntSet) → IsDenied sets claim → NoneOf sets self.now.result (Admits image)) }
    {
        match (self.result, image) {
            (None, Image::Holds) => None,
            (Some(term), Image::Only(value)) => Some(Claim::equal(term, value)),
            (Some(term), Image::AllBut(value)) => Some(Claim::other_than(term, value)),
            _ => Some(Claim::never()),
        }
    }
}
