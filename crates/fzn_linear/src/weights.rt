// By what the variables of a sum count.
ghost use Rattle.std.specs.Prelude.{◌≡◌, IfOk};
ghost use Rattle.fzn_linear.specs.Counted.{weights_in};

use crate::form::SumForm;
use fzn_domain::Memory;
use fzn_values::Term;
use std::alloc::Global;

/// By what the sum multiplies its variables, each from -10^9 to 10^9, in the order in which its propagator waits for them. It waits for
/// the switch last, and that has none. `Err` where memory runs out.
pub fn weights_of(alloc: Global, form: &SumForm) -> Result<Vec<i64>, Memory>
    ensures { IfOk result (λ weights. weights.items ≡ weights_in form.now) }
{
    let mut weights = Vec::new(alloc);
    let places = form.places.as_slice();
    for place in places {
        match place.term {
            Term::Variable(_) => weights.push(place.coefficient)?,
            Term::Constant(_) => {}
        }
    }
    Ok(weights)
}
