// What a pass over the parts of a constraint reads.
ghost use Rattle.std.specs.Prelude.{◌≡◌, Some, None, length};
ghost use Rattle.std.specs.List.{All};
ghost use Rattle.std.proofs.Props.{props};
ghost use Rattle.fzn_domain.specs.Narrow.{NoneEmpty};
ghost use Rattle.fzn_meaning.specs.Meaning.{IsSwitch};
ghost use Rattle.fzn_values.specs.Term.{IsTerm};
ghost use Rattle.fzn_builtin_rules.specs.Choices.{inputs_of, result_of};
ghost use Rattle.fzn_builtin_rules.specs.Form.{form_of};
ghost use Rattle.fzn_terms.specs.Values.{IsTerm-prop, AreTerms-prop};
ghost use Rattle.fzn_fixed.specs.Parts.{ArePartsReady};

use crate::parts::Parts;
use fzn_meaning::Constraint;
use fzn_trail::Trail;
use fzn_values::Term;
use std::alloc::Global;

/// One pass over the parts of a constraint that is no sum, on a trail on which each present set has a value.
#[derive(Clone, Copy)]
pub(crate) struct Pass<'a> {
    pub alloc: Global,
    pub trail: &'a Trail,
    pub constraint: &'a Constraint,
    /// The terms whose values make the result, in order.
    pub inputs: &'a [Term],
    /// The term of the result, where it has one.
    pub result: Option<Term>,
    ghost inputs_fit: { All (IsTerm (length trail.now.declared)) inputs.now } by { AreTerms-prop _ _ },
    ghost result_fits: { IsSwitch (length trail.now.declared) result } by { Prim.hlevel (props, IsTerm-prop) },
    ghost inputs_are: { inputs_of constraint.now ≡ Some inputs.now },
    ghost result_is: { result_of constraint.now ≡ result },
    ghost other: { form_of constraint.now ≡ None },
    ghost filled: { NoneEmpty trail.now.sets },
}

impl<'a> Pass<'a> {
    pub(crate) fn new(alloc: Global, trail: &'a Trail, parts: &'a Parts) -> Pass<'a>
        requires ready { ArePartsReady (length trail.now.declared) parts.now }
        requires filled { NoneEmpty trail.now.sets }
        ensures trail { result.trail.now ≡ trail.now }
        ensures constraint { result.constraint.now ≡ parts.now.constraint }
    {
        Pass {
            alloc,
            trail,
            constraint: &parts.constraint,
            inputs: parts.inputs.as_slice(),
            result: parts.result,
        }
    }
}
