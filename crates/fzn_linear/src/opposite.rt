// The form that holds exactly where another does not.
ghost use Rattle.std.specs.Prelude.{◌≡◌, IfOk};
ghost use Rattle.std.specs.List.{All};
ghost use Rattle.fzn_domain.specs.Limits.{IsSmall};
ghost use Rattle.fzn_sum.specs.Opposite.{opposites};
ghost use Rattle.fzn_linear.specs.Kinds.{form_of_sum};
ghost use Rattle.fzn_linear.specs.OppositeForm.{other_comparison, other_bound, opposite_form};

use crate::form::SumForm;
use fzn_domain::Memory;
use fzn_list::Items;
use fzn_meaning::Comparison;
use fzn_values::Place;
use std::alloc::Global;

/// With the same switch.
pub fn opposite_of(alloc: Global, form: &SumForm) -> Result<SumForm, Memory>
    requires places { All (λ place. IsSmall place.coefficient) form.now.places }
    requires bounded { IsSmall form.now.bound }
    ensures { IfOk result (λ other. form_of_sum other ≡ opposite_form (form_of_sum form.now)) }
{
    Ok(SumForm {
        places: opposites(alloc, form.places.as_slice())?,
        comparison: other_comparison(form.comparison),
        bound: other_bound(form.comparison, form.bound),
        switch: form.switch,
    })
}

fn opposites(alloc: Global, places: &[Place]) -> Result<Items<Place>, Memory>
    requires { All (λ place. IsSmall place.coefficient) places.now }
    ensures { IfOk result (λ all. all ≡ opposites places.now) }
{
    let mut all = Items::new(alloc);
    for place in places {
        all.push(Place {
            coefficient: -place.coefficient,
            term: place.term,
        })?;
    }
    Ok(all)
}

fn other_comparison(comparison: Comparison) -> Comparison
    ensures { result ≡ other_comparison comparison }
{
    match comparison {
        Comparison::AtMost => Comparison::AtMost,
        Comparison::Equal => Comparison::NotEqual,
        Comparison::NotEqual => Comparison::Equal,
    }
}

fn other_bound(comparison: Comparison, bound: i64) -> i64
    requires { IsSmall bound }
    ensures { result ≡ other_bound comparison bound }
{
    match comparison {
        Comparison::AtMost => -bound - 1,
        Comparison::Equal | Comparison::NotEqual => -bound,
    }
}
