// What has to hold where the switch of a sum has one value.
ghost use Rattle.std.specs.Prelude.{◌≡◌, ◌≢◌, ◌++◌, ◌≤ℤ◌, [], length, None, IfOk, IfSome, OnOk};
ghost use Rattle.std.proofs.Props.{props};
ghost use Rattle.fzn_linear.specs.Kinds.{form_of_sum};
ghost use Rattle.fzn_linear.specs.Sum.{IsSumWithOpposite, IsSum-prop};
ghost use Rattle.fzn_linear.specs.Switched.{form_where, MayBeSwitchAt, MayBeSwitchAt-prop, IsSwitchFixed, guard_of};

use crate::form::SumForm;
use crate::pass::Pass;
use fzn_builtin_rules::Ends;
use fzn_domain::{Lit, Memory, Op};
use fzn_list::Items;
use fzn_meaning::Comparison;
use fzn_propagator::Findings;
use fzn_rules::Rule;
use fzn_sum::{Inequality, conflict_not_equal, floors_of, refute_place};
use fzn_values::Term;

/// What has to hold in a pass where the switch has one value, which it may have.
#[derive(Clone, Copy)]
pub(crate) struct Side<'a> {
    pub pass: Pass<'a>,
    /// Whether this value is 1, as it counts where there is no switch.
    pub on: bool,
    /// The sum compares so with its bound.
    pub sum: &'a SumForm,
    /// And the opposite sum not so with its own.
    pub opposite: &'a SumForm,
    ghost fits: { IsSumWithOpposite (length pass.trail.now.declared) sum.now opposite.now.places } by { IsSum-prop _ _ _ },
    ghost sum_is: { form_of_sum sum.now ≡ form_where on (form_of_sum pass.form.now) } by { Prim.hlevel props },
    ghost may: { MayBeSwitchAt pass.trail.now.sets pass.form.now.switch on } by { MayBeSwitchAt-prop _ _ _ },
}

impl<'a> Side<'a> {
    ghost use Rattle.fzn_meaning.specs.declared.relation.Comparison.TheVariants.{NotEqual};
    ghost use Rattle.fzn_builtin_rules.specs.Linear.{least_sum};
    ghost use Rattle.fzn_propagator.specs.Inference.{IsTight};
    ghost use Rattle.fzn_sum.specs.Ends.{AreEnds};
    ghost use Rattle.fzn_linear.specs.Passes.{AddsFound, IsInferredGuarded, IsBoundOfSide};
    ghost use Rattle.fzn_linear.specs.Sum.{IsFormLeft};

    /// Finds what follows where the sum, which has these ends, has to be at most its bound or to be it.
    #[tactic(auto, using(crate::proofs::PassLemmas::adds_none, crate::proofs::PassLemmas::adds_both, crate::proofs::RefuteLemmas::part_alone, crate::proofs::RefuteLemmas::part_above, crate::proofs::RefuteLemmas::part_below))]
    pub(crate) fn hold(&self, ends: Ends, found: &mut Findings) -> Result<(), Memory>
        requires decided { IsSwitchFixed self.now.pass.trail.now.sets self.now.pass.form.now.switch }
        requires compares { self.now.sum.now.comparison ≢ NotEqual }
        requires ends { AreEnds self.now.pass.trail.now.sets self.now.sum.now.places ends }
        ensures found { AddsFound self.now.pass found.old found.new }
        ensures none { OnOk result (found.new ≡ [] → IsFormLeft self.now.pass.trail.now.sets (form_of_sum self.now.sum.now)) }
    {
        match self.sum.comparison {
            Comparison::AtMost => self.keep(&self.above(ends), found),
            Comparison::Equal => {
                let above = self.above(ends);
                self.keep(&above, found)?;
                self.keep(&above.turned(self.opposite.places.as_slice()), found)
            }
            Comparison::NotEqual => Ok(()), // A pass asks such a sum without a side.
        }
    }

    /// Finds that the switch has another value, where no sum between these ends compares so.
    #[tactic(auto, using(crate::proofs::PassLemmas::adds_none, crate::proofs::PassLemmas::adds_both, crate::proofs::RefuteLemmas::part_alone, crate::proofs::RefuteLemmas::part_above, crate::proofs::RefuteLemmas::part_below))]
    pub(crate) fn decide(&self, ends: Ends, found: &mut Findings) -> Result<(), Memory>
        requires { AreEnds self.now.pass.trail.now.sets self.now.sum.now.places ends }
        ensures { AddsFound self.now.pass found.old found.new }
    {
        match self.sum.comparison {
            Comparison::AtMost => self.exceed(&self.above(ends), found),
            Comparison::Equal => {
                let above = self.above(ends);
                self.exceed(&above, found)?;
                self.exceed(&above.turned(self.opposite.places.as_slice()), found)
            }
            Comparison::NotEqual if ends.least == ends.greatest => {
                let (alloc, trail) = (self.pass.alloc, self.pass.trail);
                let places = self.sum.places.as_slice();
                let clause = conflict_not_equal(alloc, trail, places, self.sum.bound)?;
                self.hand_over(clause, found)
            }
            Comparison::NotEqual => Ok(()),
        }
    }

    /// That the sum, which has these ends, is at most its bound.
    fn above(&self, ends: Ends) -> Inequality<'a>
        requires { AreEnds self.now.pass.trail.now.sets self.now.sum.now.places ends }
        ensures trail { result.trail.now ≡ self.now.pass.trail.now }
        ensures places { result.places.now ≡ self.now.sum.now.places }
        ensures bound { result.bound ≡ self.now.sum.now.bound }
    {
        Inequality {
            trail: self.pass.trail,
            places: self.sum.places.as_slice(),
            bound: i128::from(self.sum.bound),
            ends,
        }
    }

    /// Finds that a part exceeds its bound, or what each place that is forced there has to be.
    #[tactic(auto, using(crate::proofs::PassLemmas::adds_none, crate::proofs::PassLemmas::adds_both))]
    fn keep(&self, part: &Inequality<'a>, found: &mut Findings) -> Result<(), Memory>
        requires decided { IsSwitchFixed self.now.pass.trail.now.sets self.now.pass.form.now.switch }
        requires part { IsBoundOfSide self.now part.now }
        ensures found { AddsFound self.now.pass found.old found.new }
        ensures none { OnOk result (found.new ≡ [] → IsTight part.now.trail.now.sets part.now.places.now part.now.bound) }
    {
        self.exceed(part, found)?;
        self.force(part, found)
    }

    /// Finds that the least sum of a part exceeds its bound.
    fn exceed(&self, part: &Inequality<'a>, found: &mut Findings) -> Result<(), Memory>
        requires { IsBoundOfSide self.now part.now }
        ensures found { AddsFound self.now.pass found.old found.new }
        ensures none { OnOk result (found.new ≡ [] → least_sum part.now.trail.now.sets part.now.places.now ≤ℤ part.now.bound) }
    {
        let clause = part.conflict(self.pass.alloc)?;
        self.hand_over(clause, found)
    }

    /// Finds what each place of a part that is forced has to be.
    #[tactic(auto, using(crate::proofs::PassLemmas::adds_none, crate::proofs::PassLemmas::adds_both))]
    fn force(&self, part: &Inequality<'a>, found: &mut Findings) -> Result<(), Memory>
        requires decided { IsSwitchFixed self.now.pass.trail.now.sets self.now.pass.form.now.switch }
        requires part { IsBoundOfSide self.now part.now }
        ensures found { AddsFound self.now.pass found.old found.new }
        ensures none { OnOk result (found.new ≡ [] → least_sum part.now.trail.now.sets part.now.places.now ≤ℤ part.now.bound → IsTight part.now.trail.now.sets part.now.places.now part.now.bound) }
    {
        let Some(slack) = part.slack() else {
            return Ok(());
        };
        let (alloc, trail, places) = (self.pass.alloc, part.trail, part.places);
        let floors = floors_of(alloc, trail, places)?;
        for place in 0..places.len() {
            let clause = refute_place(alloc, trail, places, floors.as_slice(), slack, place)?;
            self.hand_over(clause, found)?;
        }
        Ok(())
    }

    /// Hands over the clause, where there is one, with the literal behind it that the switch has another value.
    pub(crate) fn hand_over(
        &self,
        clause: Option<Items<Lit>>,
        found: &mut Findings,
    ) -> Result<(), Memory>
        requires { IfSome clause (IsInferredGuarded self.now) }
        ensures found { AddsFound self.now.pass found.old found.new }
        ensures none { OnOk result (found.new ≡ [] → clause ≡ None) }
    {
        let Some(clause) = clause else {
            return Ok(());
        };
        let all = self.with_guard(clause)?;
        found.hand_over(self.pass.number, Rule::Lin, Some(all))
    }

    fn with_guard(&self, clause: Items<Lit>) -> Result<Items<Lit>, Memory>
        ensures { IfOk result (λ all. all ≡ clause ++ guard_of self.now.pass.form.now.switch self.now.on) }
    {
        let Some(Term::Variable(var)) = self.pass.form.switch else {
            return Ok(clause);
        };
        let mut clause = clause;
        clause.push(Lit {
            var,
            op: Op::NotEqual,
            value: i64::from(self.on),
        })?;
        Ok(clause)
    }
}
