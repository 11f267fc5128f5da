// The form of a constraint: a sum that compares with a bound.
ghost use Rattle.std.specs.Prelude.{◌≡◌, ◌*◌, ◌<◌, ◌≤◌, pos, length, slice_index_or, Some, None, IfNone, IfSome};
ghost use Rattle.fzn_list.specs.Limits.{longest};
ghost use Rattle.fzn_values.specs.declared.term.Term.TheVariants.{Constant};
ghost use Rattle.fzn_meaning.specs.declared.relation.Comparison.TheVariants as sum;
ghost use Rattle.fzn_builtin_rules.specs.Form.{form, form_of, comparison_of, bound_of, passing_bound, place_with};
ghost use Rattle.fzn_builtin_rules.specs.Borrowed.{form_in, places_in};

use fzn_meaning::{Comparison, Constraint, Gate, Operation, Relation, Sum};
use fzn_values::{Place, Term};

/// The places of a form's sum, borrowed from its constraint.
#[derive(Clone, Copy)]
pub enum Places<'a> {
    /// The one term and the other.
    Both(Term, Term),
    /// The one term less the other.
    Difference(Term, Term),
    /// The first two terms less the third.
    BothLess(Term, Term, Term),
    /// The places of a sum.
    All(&'a Sum),
    /// The places of a sum less a term.
    AllLess(&'a Sum, Term),
    /// Each term, taken away.
    Minus(&'a [Term]),
    /// The first terms less the second ones.
    Less(&'a [Term], &'a [Term]),
}

/// The sum over the places compares so with the bound; with a switch, exactly where this term is 1.
#[derive(Clone, Copy)]
pub struct Form<'a> {
    /// The places of the sum.
    pub places: Places<'a>,
    /// How the sum compares with the bound.
    pub comparison: Comparison,
    /// The bound.
    pub bound: i64,
    /// The switch, if there is one.
    pub switch: Option<Term>,
}

/// The form of the constraint, where it has one.
#[tactic(auto, unfolding(crate::specs::Form::form_of))]
pub fn form_of<'a>(constraint: &'a Constraint) -> Option<Form<'a>>
    ensures found { IfSome result (λ found. form_of constraint.now ≡ Some (form_in found)) }
    ensures none { IfNone result (form_of constraint.now ≡ None) }
{
    match constraint {
        Constraint::Compare {
            relation,
            left,
            right,
            switch,
        } => Some(Form {
            places: Places::Difference(*left, *right),
            comparison: comparison_of(*relation),
            bound: bound_of(*relation),
            switch: *switch,
        }),
        Constraint::BoolNot { left, right } => Some(equal(Places::Both(*left, *right), 1)),
        Constraint::BoolToInt { boolean, integer } => {
            Some(equal(Places::Difference(*boolean, *integer), 0))
        }
        Constraint::Linear {
            sum,
            comparison,
            bound,
            switch,
        } => Some(Form {
            places: Places::All(sum),
            comparison: *comparison,
            bound: *bound,
            switch: *switch,
        }),
        Constraint::BoolLinEq { sum, total } => Some(equal(Places::AllLess(sum, *total), 0)),
        Constraint::Arithmetic {
            operation: Operation::Plus,
            left,
            right,
            result,
        } => Some(equal(Places::BothLess(*left, *right, *result), 0)),
        Constraint::Gated {
            gate,
            inputs,
            result,
        } => Some(Form {
            places: Places::Minus(inputs.as_slice()),
            comparison: Comparison::AtMost,
            bound: passing_bound(*gate, inputs.as_slice()),
            switch: Some(*result),
        }),
        Constraint::BoolClause { positive, negative } => Some(Form {
            places: Places::Less(negative.as_slice(), positive.as_slice()),
            comparison: Comparison::AtMost,
            bound: negative.len() as i64 - 1,
            switch: None,
        }),
        _ => None,
    }
}

/// The sum is the number.
fn equal<'a>(places: Places<'a>, bound: i64) -> Form<'a>
    ensures { form_in result ≡ form (places_in places.entry) sum.Equal bound None }
{
    Form {
        places,
        comparison: Comparison::Equal,
        bound,
        switch: None,
    }
}

fn place_with(coefficient: i64, term: Term) -> Place
    ensures { result ≡ place_with coefficient term }
{
    Place { coefficient, term }
}

fn comparison_of(relation: Relation) -> Comparison
    ensures { result ≡ comparison_of relation }
{
    match relation {
        Relation::Equal => Comparison::Equal,
        Relation::NotEqual => Comparison::NotEqual,
        Relation::AtMost | Relation::Below => Comparison::AtMost,
    }
}

fn bound_of(relation: Relation) -> i64
    ensures { result ≡ bound_of relation }
{
    match relation {
        Relation::Below => -1,
        _ => 0,
    }
}

/// What the inputs, each counted -1, are at most where they pass.
fn passing_bound(gate: Gate, inputs: &[Term]) -> i64
    ensures { result ≡ passing_bound gate inputs.now }
{
    match gate {
        Gate::And => -(inputs.len() as i64),
        Gate::Or => -1,
    }
}

impl<'a> Places<'a> {
    /// How many places there are, of a constraint that a model may have.
    pub fn len(&self) -> usize
        requires { length (places_in self.now) ≤ 2 * longest }
        ensures { result ≡ length (places_in self.now) }
    {
        match self {
            Places::Both(_, _) | Places::Difference(_, _) => 2,
            Places::BothLess(_, _, _) => 3,
            Places::All(sum) => sum.len(),
            Places::AllLess(sum, _) => sum.len() + 1,
            Places::Minus(terms) => terms.len(),
            Places::Less(first, second) => first.len() + second.len(),
        }
    }

    /// The place with this number, from 0.
    pub fn place(&self, place: usize) -> Place
        requires few { length (places_in self.now) ≤ 2 * longest }
        requires inside { place < length (places_in self.now) }
        ensures { result ≡ slice_index_or (places_in self.now) place (record { coefficient = pos 0; term = Constant (pos 0) }) }
    {
        match self {
            Places::Both(left, right) => if place == 0 {
                place_with(1, *left)
            } else {
                place_with(1, *right)
            },
            Places::Difference(left, right) => if place == 0 {
                place_with(1, *left)
            } else {
                place_with(-1, *right)
            },
            Places::BothLess(left, right, of) => match place {
                0 => place_with(1, *left),
                1 => place_with(1, *right),
                _ => place_with(-1, *of),
            },
            Places::All(sum) => sum.place(place),
            Places::AllLess(sum, term) if place < sum.len() => sum.place(place),
            Places::AllLess(_, term) => place_with(-1, *term),
            Places::Minus(terms) => place_with(-1, terms[place]),
            Places::Less(first, second) if place < first.len() => place_with(1, first[place]),
            Places::Less(first, second) => place_with(-1, second[place - first.len()]),
        }
    }
}
