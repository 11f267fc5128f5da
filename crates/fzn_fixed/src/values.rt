// The values of the inputs, and the clause that some input has another.
ghost use Rattle.std.specs.Prelude.{◌≡◌, IfOk, IfSome, IfNone, [], length, ℤ};
ghost use Rattle.std.specs.List.{All};
ghost use Rattle.fzn_domain.specs.Limits.{IsInLimits};
ghost use Rattle.fzn_values.specs.Term.{IsTerm};
ghost use Rattle.fzn_sets.specs.Terms.{least_value};
ghost use Rattle.fzn_propagator.specs.Left.{IsLeft};
ghost use Rattle.fzn_terms.specs.Values.{IsFixed};
ghost use Rattle.fzn_fixed.specs.Denial.{IsOtherValue, IsDenial};
ghost use Rattle.fzn_fixed.specs.Passes.{AreFixed, least_values};

use crate::pass::Pass;
use fzn_domain::{Lit, Memory, Op};
use fzn_list::Items;
use fzn_terms::least_of;
use fzn_values::Term;
use smallvec::SmallVec;

/// Values of terms. Most constraints have few inputs, whose values take no memory of their own.
pub type Values = SmallVec<i64, 4>;

impl<'a> Pass<'a> {
    /// The least value of each input, in order.
    pub(crate) fn values(&self) -> Result<Values, Memory>
        ensures values { IfOk result (λ values. values.items ≡ least_values self.now) }
        ensures one_each { IfOk result (λ values. length values.items ≡ length self.now.inputs.now) }
        ensures in_limits { IfOk result (λ values. All IsInLimits values.items) }
    {
        let mut values = SmallVec::new(self.alloc);
        for term in self.inputs {
            values.push(least_of(self.trail, *term))?;
        }
        Ok(values)
    }

    /// A clause that is false, and says that some input has another value than the one that it has.
    pub(crate) fn denial(&self) -> Result<Items<Lit>, Memory>
        requires fixed { AreFixed self.now }
        ensures { IfOk result (IsDenial self.now.trail.now self.now.inputs.now) }
    {
        let mut clause = Items::new(self.alloc);
        for term in self.inputs {
            if let Some(lit) = self.other_value(*term) {
                clause.push(lit)?;
            }
        }
        Ok(clause)
    }

    /// The literal that a variable, which has one value, has another.
    fn other_value(&self, term: Term) -> Option<Lit>
        requires term { IsTerm (length self.now.trail.now.declared) term }
        requires fixed { IsFixed self.now.trail.now.sets term }
        ensures found { IfSome result (IsOtherValue self.now.trail.now term) }
        ensures none { IfNone result ((v : ℤ) → IsLeft self.now.trail.now.declared [] term v → v ≡ least_value self.now.trail.now.sets term) }
    {
        let Term::Variable(var) = term else {
            return None;
        };
        Some(Lit {
            var,
            op: Op::NotEqual,
            value: self.trail.domain(var).min(),
        })
    }
}
