// One pass over a sum, and by which value of the switch what has to hold.
ghost use Rattle.std.specs.Prelude.{◌≡◌, ◌≢◌, ◌≤◌, List, length, unsigned_abs, IfSome, IfNone, IsTrue, OnOk, MatchBool, Bool};
ghost use Rattle.fzn_domain.specs.IntSet.{IntSet};
ghost use Rattle.fzn_domain.specs.Narrow.{NoneEmpty};
ghost use Rattle.fzn_values.specs.declared.term.Place.{Place};
ghost use Rattle.fzn_meaning.specs.declared.relation.Comparison.TheVariants.{NotEqual};
ghost use Rattle.fzn_sum.specs.Ends.{AreEnds};
ghost use Rattle.fzn_linear.specs.Kinds.{form_of_sum, IsSumReady, IsReady-prop};
ghost use Rattle.fzn_linear.specs.Sum.{IsSumWithOpposite, IsFormLeft};
ghost use Rattle.fzn_linear.specs.Switched.{form_where, IsSwitchAt, MayBeSwitchAt, IsSwitchFixed};

use crate::form::SumForm;
use crate::side::Side;
use fzn_builtin_rules::Ends;
use fzn_domain::{Lit, Memory};
use fzn_list::Items;
use fzn_meaning::Comparison;
use fzn_propagator::Findings;
use fzn_sum::{ends_of, is_tight, refute_not_equal, turned};
use fzn_terms::{greatest_of, least_of};
use fzn_trail::Trail;
use std::alloc::Global;

/// One pass over a sum, on a trail on which each present set has a value.
#[derive(Clone, Copy)]
pub(crate) struct Pass<'a> {
    pub alloc: Global,
    /// The number of the constraint, counted from 1.
    pub number: u64,
    pub trail: &'a Trail,
    /// The form of the constraint, which has to hold where the switch is 1, or where there is none.
    pub form: &'a SumForm,
    /// The form that has to hold where the switch is 0.
    pub opposite: &'a SumForm,
    ghost ready: { IsSumReady (length trail.now.declared) form.now opposite.now } by { IsReady-prop _ _ _ },
    ghost filled: { NoneEmpty trail.now.sets },
}

impl<'a> Pass<'a> {
    ghost use Rattle.std.specs.Prelude.{[]};
    ghost use Rattle.fzn_builtin_rules.specs.Linear.{least_sum};
    ghost use Rattle.fzn_linear.specs.Passes.{AddsFound, IsFormRefuted};
    ghost use Rattle.fzn_linear.specs.Sum.{IsLeftAlone};

    /// Finds what has to hold where the switch has one value, or there is none; else that it has not the value for which the ends of the sum
    /// leave nothing.
    #[tactic(auto, using(crate::proofs::PassLemmas::adds_none, crate::proofs::PassLemmas::adds_both))]
    pub(crate) fn find(&self, found: &mut Findings) -> Result<(), Memory>
        ensures found { AddsFound self.now found.old found.new }
        ensures none { OnOk result (found.new ≡ [] → IsLeftAlone self.now.trail.now.sets (form_of_sum self.now.form.now)) }
    {
        if let Some(on) = self.decided() {
            return self.hold(on, found);
        }
        let ends = ends_of(self.trail, self.form.places.as_slice());
        if self.leaves_both(ends) {
            return Ok(());
        }
        self.decide(true, ends, found)?;
        self.decide(false, turned(ends), found)
    }

    /// Whether the switch is 1, where it has one value. Where there is no switch it counts as 1.
    fn decided(&self) -> Option<bool>
        ensures fixed { IfSome result (λ _. IsSwitchFixed self.now.trail.now.sets self.now.form.now.switch) }
        ensures value { IfSome result (λ on. (other : Bool) → IsSwitchAt self.now.trail.now.sets self.now.form.now.switch other → other ≡ on) }
        ensures none { IfNone result ((on : Bool) → IsSwitchAt self.now.trail.now.sets self.now.form.now.switch on → ⊥) }
    {
        let Some(switch) = self.form.switch else {
            return Some(true);
        };
        let value = least_of(self.trail, switch);
        if value != greatest_of(self.trail, switch) {
            return None;
        }
        Some(value == 1)
    }

    /// Whether some sum between these ends compares so with the bound, and some does not.
    fn leaves_both(&self, ends: Ends) -> bool {
        let bound = i128::from(self.form.bound);
        match self.form.comparison {
            Comparison::AtMost => ends.least <= bound && bound < ends.greatest,
            Comparison::Equal | Comparison::NotEqual => {
                ends.least <= bound && bound <= ends.greatest && ends.least < ends.greatest
            }
        }
    }

    /// What has to hold where the switch is 1 or there is none, or where it is 0: nothing where it has not this value.
    fn side(&self, on: bool) -> Option<Side<'a>>
        ensures some { IfSome result (λ side. (side.pass ≡ self.now) × (side.on ≡ on)) }
        ensures none { IfNone result (IsSwitchAt self.now.trail.now.sets self.now.form.now.switch on → ⊥) }
    {
        if !self.may_be(on) {
            return None;
        }
        let (sum, opposite) = if on {
            (self.form, self.opposite)
        } else {
            (self.opposite, self.form)
        };
        Some(Side {
            pass: *self,
            on,
            sum,
            opposite,
        })
    }

    /// Whether the least or the greatest value of the switch is 1, or 0. Where there is no switch it counts as 1.
    fn may_be(&self, on: bool) -> bool
        ensures { MatchBool result (MayBeSwitchAt self.now.trail.now.sets self.now.form.now.switch on) (IsSwitchAt self.now.trail.now.sets self.now.form.now.switch on → ⊥) }
    {
        match self.form.switch {
            Some(switch) => {
                let value = i64::from(on);
                least_of(self.trail, switch) == value || greatest_of(self.trail, switch) == value
            }
            None => on,
        }
    }

    /// The form that has to hold where the switch is 1 or there is none, or where it is 0.
    fn sum_where(&self, on: bool) -> &'a SumForm
        ensures value { form_of_sum result.now ≡ form_where on (form_of_sum self.now.form.now) }
        ensures fits { (opposite : List Place) × IsSumWithOpposite (length self.now.trail.now.declared) result.now opposite }
    {
        if on { self.form } else { self.opposite }
    }

    /// Finds what follows from what has to hold where the switch has this value, if it has. Mostly nothing does, and mostly the ends of the
    /// sum say so.
    #[tactic(auto, using(crate::proofs::PassLemmas::adds_none))]
    fn hold(&self, on: bool, found: &mut Findings) -> Result<(), Memory>
        requires { IsSwitchFixed self.now.trail.now.sets self.now.form.now.switch }
        ensures found { AddsFound self.now found.old found.new }
        ensures none { OnOk result (found.new ≡ [] → IsSwitchAt self.now.trail.now.sets self.now.form.now.switch on → IsFormLeft self.now.trail.now.sets (form_where on (form_of_sum self.now.form.now))) }
    {
        let sum = self.sum_where(on);
        match sum.comparison {
            Comparison::AtMost | Comparison::Equal => {
                let ends = ends_of(self.trail, sum.places.as_slice());
                if leaves_each(sum, ends) {
                    return Ok(());
                }
                self.keep(on, ends, found)
            }
            Comparison::NotEqual => self.differ(on, found),
        }
    }

    /// The same, where the sum, which has these ends, has to be at most its bound or to be it.
    #[tactic(auto, using(crate::proofs::PassLemmas::adds_none, crate::proofs::PassLemmas::adds_both))]
    fn keep(&self, on: bool, ends: Ends, found: &mut Findings) -> Result<(), Memory>
        requires decided { IsSwitchFixed self.now.trail.now.sets self.now.form.now.switch }
        requires compares { (form_where on (form_of_sum self.now.form.now)).comparison ≢ NotEqual }
        requires ends { AreEnds self.now.trail.now.sets (form_where on (form_of_sum self.now.form.now)).places ends }
        ensures found { AddsFound self.now found.old found.new }
        ensures none { OnOk result (found.new ≡ [] → IsSwitchAt self.now.trail.now.sets self.now.form.now.switch on → IsFormLeft self.now.trail.now.sets (form_where on (form_of_sum self.now.form.now))) }
    {
        match self.side(on) {
            Some(side) => side.hold(ends, found),
            None => Ok(()),
        }
    }

    /// The same, where the sum has to differ from its bound.
    #[tactic(auto, using(crate::proofs::PassLemmas::adds_none))]
    fn differ(&self, on: bool, found: &mut Findings) -> Result<(), Memory>
        requires decided { IsSwitchFixed self.now.trail.now.sets self.now.form.now.switch }
        requires differs { (form_where on (form_of_sum self.now.form.now)).comparison ≡ NotEqual }
        ensures found { AddsFound self.now found.old found.new }
        ensures none { OnOk result (found.new ≡ [] → IsSwitchAt self.now.trail.now.sets self.now.form.now.switch on → IsFormLeft self.now.trail.now.sets (form_where on (form_of_sum self.now.form.now))) }
    {
        let sum = self.sum_where(on);
        match refute_not_equal(self.alloc, self.trail, sum.places.as_slice(), sum.bound)? {
            Some(clause) => self.hand_over(on, clause, found),
            None => Ok(()),
        }
    }

    /// Hands over a clause that refutes what has to hold where the switch has this value, if it has.
    #[tactic(auto, using(crate::proofs::PassLemmas::adds_none))]
    fn hand_over(&self, on: bool, clause: Items<Lit>, found: &mut Findings) -> Result<(), Memory>
        requires decided { IsSwitchFixed self.now.trail.now.sets self.now.form.now.switch }
        requires refutes { IsFormRefuted self.now.trail.now (form_where on (form_of_sum self.now.form.now)) clause }
        ensures found { AddsFound self.now found.old found.new }
        ensures none { OnOk result (found.new ≡ [] → IsSwitchAt self.now.trail.now.sets self.now.form.now.switch on → ⊥) }
    {
        match self.side(on) {
            Some(side) => side.hand_over(Some(clause), found),
            None => Ok(()),
        }
    }

    /// Finds that the switch has not this value, where the ends of the sum that has to hold for it leave nothing of that.
    #[tactic(auto, using(crate::proofs::PassLemmas::adds_none, crate::proofs::PassLemmas::adds_both))]
    fn decide(&self, on: bool, ends: Ends, found: &mut Findings) -> Result<(), Memory>
        requires { AreEnds self.now.trail.now.sets (form_where on (form_of_sum self.now.form.now)).places ends }
        ensures { AddsFound self.now found.old found.new }
    {
        match self.side(on) {
            Some(side) => side.decide(ends, found),
            None => Ok(()),
        }
    }
}

/// Whether nothing follows where the sum of the form, which has these ends, has to compare so with its bound: `false` where the ends do not
/// say so.
fn leaves_each(sum: &SumForm, ends: Ends) -> bool
    requires bounded { unsigned_abs sum.now.bound ≤ 1000000001 }
    requires ends { (sets : List IntSet) × AreEnds sets sum.now.places ends }
    ensures { IsTrue result → (sets : List IntSet) → AreEnds sets sum.now.places ends → IsFormLeft sets (form_of_sum sum.now) }
{
    match sum.comparison {
        Comparison::AtMost => is_tight(ends, sum.bound),
        Comparison::Equal => is_tight(ends, sum.bound) && is_tight(turned(ends), -sum.bound),
        Comparison::NotEqual => false,
    }
}
