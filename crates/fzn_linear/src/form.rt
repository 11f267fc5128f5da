// The form of a constraint, of its own.
ghost use Rattle.std.specs.Prelude.{◌≡◌, ◌*◌, ◌≤◌, length, IfOk, IfNone, IfSome, None};
ghost use Rattle.fzn_list.specs.Limits.{longest};
ghost use Rattle.fzn_builtin_rules.specs.Form.{form_of};
ghost use Rattle.fzn_builtin_rules.specs.Borrowed.{places_in};
ghost use Rattle.fzn_linear.specs.Kinds.{IsFormOf};

use fzn_builtin_rules::{Places, form_of as borrowed_form_of};
use fzn_domain::Memory;
use fzn_list::Items;
use fzn_meaning::{Comparison, Constraint};
use fzn_values::{Place, Term};
use std::alloc::Global;

/// The sum over the places compares so with the bound; with a switch, exactly where this term is 1.
#[derive(Debug, Drop)]
pub struct SumForm {
    /// The terms of the sum, each with its coefficient: at most 200,000 of them.
    pub places: Items<Place>,
    /// How the sum compares with the bound.
    pub comparison: Comparison,
    /// What the sum compares with: from -10^9 - 1 to 10^9 + 1.
    pub bound: i64,
    /// What is 1 where the sum compares so, and else 0; none where it has to.
    pub switch: Option<Term>,
}

/// The form of the constraint, where it has one.
pub fn form_of(alloc: Global, constraint: &Constraint) -> Result<Option<SumForm>, Memory>
    requires { IfSome (form_of constraint.now) (λ form. length form.places ≤ 2 * longest) }
    ensures found { IfOk result (λ found. IfSome found (IsFormOf constraint.now)) }
    ensures none { IfOk result (λ found. IfNone found (form_of constraint.now ≡ None)) }
{
    let Some(form) = borrowed_form_of(constraint) else {
        return Ok(None);
    };
    Ok(Some(SumForm {
        places: copied(alloc, &form.places)?,
        comparison: form.comparison,
        bound: form.bound,
        switch: form.switch,
    }))
}

fn copied(alloc: Global, places: &Places<'_>) -> Result<Items<Place>, Memory>
    requires { length (places_in places.now) ≤ 2 * longest }
    ensures { IfOk result (λ all. all ≡ places_in places.now) }
{
    let mut all = Items::new(alloc);
    for i in 0..places.len() {
        all.push(places.place(i))?;
    }
    Ok(all)
}
