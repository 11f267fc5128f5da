// Constraints added up.
ghost use Rattle.std.specs.Prelude.{◌≡◌, ◌↔◌, ◌⊎◌, ◌≤◌, unsigned_abs, IsTrue, IfOk, IfErr};
ghost use Rattle.std.specs.List.{All};
ghost use Rattle.fzn_meaning.specs.Meaning.{IsWellFormedConstraint};
ghost use Rattle.fzn_builtin_rules.specs.Borrowed.{form_in};
ghost use Rattle.fzn_cited.specs.declared.fault.DeriveFault.TheVariants.{Memory};
ghost use Rattle.fzn_derive.specs.Summed.{IsUsable, MayMultiply, IsFirstSumFault, IsSummed, IsSumFault};
ghost use Rattle.fzn_derive.specs.Room.{variables_in, HoldsNothing, ListsTouched, AreWithinLimit, IsWithinLimit, IsUsableForm, IsUnusable, IsMultipleAdded, IsMultipleFault, AreSummedUp};

use crate::adder::Adder;
use fzn_builtin_rules::{Form, form_of};
use fzn_cited::{DeriveFault, Multiple, constraint_at};
use fzn_meaning::{Comparison, Constraint};
use std::alloc::Global;

/// How far from 0 a multiplier lies at the most: 10^12.
const GREATEST_MULTIPLIER: i64 = 1_000_000_000_000;

impl Adder {
    /// The sum of the forms of constraints, each times its multiplier.
    pub(crate) fn derive_sum(
        &mut self,
        alloc: Global,
        given: &[Constraint],
        multiples: &[Multiple],
    ) -> Result<Constraint, DeriveFault>
        requires clear { HoldsNothing (variables_in self.old) self.old }
        requires given { All (IsWellFormedConstraint (variables_in self.old)) given.now }
        ensures clear { HoldsNothing (variables_in self.old) self.new }
        ensures derived { IfOk result (IsSummed given.now (variables_in self.old) multiples.now) }
        ensures fault { IfErr result (λ fault. (fault ≡ Memory) ⊎ IsSumFault given.now (variables_in self.old) multiples.now fault) }
    {
        let outcome = self.add_up(alloc, given, multiples);
        self.clear();
        outcome
    }

    /// Adds them up in the clear room, and states what comes of it.
    fn add_up(
        &mut self,
        alloc: Global,
        given: &[Constraint],
        multiples: &[Multiple],
    ) -> Result<Constraint, DeriveFault>
        requires clear { HoldsNothing (variables_in self.old) self.old }
        requires given { All (IsWellFormedConstraint (variables_in self.old)) given.now }
        ensures listed { ListsTouched self.new }
        ensures variables { variables_in self.new ≡ variables_in self.old }
        ensures derived { IfOk result (IsSummed given.now (variables_in self.old) multiples.now) }
        ensures fault { IfErr result (λ fault. (fault ≡ Memory) ⊎ IsSumFault given.now (variables_in self.old) multiples.now fault) }
    {
        let bound = self.add_all(given, multiples)?;
        self.state(alloc, bound)
    }

    /// Adds up the forms, each times its multiplier, and answers what the constants leave of the bound.
    fn add_all(&mut self, given: &[Constraint], multiples: &[Multiple]) -> Result<i128, DeriveFault>
        requires clear { HoldsNothing (variables_in self.old) self.old }
        requires given { All (IsWellFormedConstraint (variables_in self.old)) given.now }
        ensures listed { ListsTouched self.new }
        ensures variables { variables_in self.new ≡ variables_in self.old }
        ensures added { IfOk result (AreSummedUp given.now self.new multiples.now) }
        ensures fault { IfErr result (λ fault. (fault ≡ Memory) ⊎ IsFirstSumFault given.now multiples.now fault) }
    {
        let mut bound: i128 = 0;
        for multiple in multiples {
            bound = self.add_multiple(given, *multiple, bound)?;
        }
        Ok(bound)
    }

    /// Adds one of them, and answers the bound so far.
    fn add_multiple(
        &mut self,
        given: &[Constraint],
        multiple: Multiple,
        bound: i128,
    ) -> Result<i128, DeriveFault>
        requires listed { ListsTouched self.old }
        requires given { All (IsWellFormedConstraint (variables_in self.old)) given.now }
        requires sums { AreWithinLimit self.old }
        requires bound { IsWithinLimit bound }
        ensures listed { ListsTouched self.new }
        ensures variables { variables_in self.new ≡ variables_in self.old }
        ensures added { IfOk result (IsMultipleAdded given.now self.old self.new bound multiple) }
        ensures fault { IfErr result (λ fault. (fault ≡ Memory) ⊎ IsMultipleFault given.now self.old bound multiple fault) }
    {
        let form = usable_form(given, multiple)?;
        self.add_form(multiple.multiplier, &form, bound)
    }
}

/// The form of a constraint, where it may be multiplied so.
fn usable_form<'a>(given: &'a [Constraint], multiple: Multiple) -> Result<Form<'a>, DeriveFault>
    ensures found { IfOk result (λ found. IsUsableForm given.now multiple (form_in found)) }
    ensures fault { IfErr result (IsUnusable given.now multiple) }
{
    let Some(constraint) = constraint_at(given, multiple.constraint) else {
        return Err(DeriveFault::NoSuchConstraint);
    };
    match form_of(constraint) {
        None => Err(DeriveFault::NotDerived),
        Some(form) => if is_usable(multiple.multiplier, &form) {
            Ok(form)
        } else {
            Err(DeriveFault::NotDerived)
        },
    }
}

/// Whether the form may be multiplied so.
fn is_usable(multiplier: i64, form: &Form<'_>) -> bool
    ensures { IsTrue result ↔ IsUsable multiplier (form_in form.now) }
{
    form.switch.is_none() && is_multiplier(form.comparison, multiplier)
}

/// Whether a number within the limits keeps such a comparison.
fn is_multiplier(comparison: Comparison, multiplier: i64) -> bool
    ensures { IsTrue result ↔ MayMultiply comparison multiplier × (unsigned_abs multiplier ≤ 1000000000000) }
{
    let within = -GREATEST_MULTIPLIER <= multiplier && multiplier <= GREATEST_MULTIPLIER;
    match comparison {
        Comparison::AtMost => within && 1 <= multiplier,
        Comparison::Equal => within && multiplier != 0,
        Comparison::NotEqual => false,
    }
}
