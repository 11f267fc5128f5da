// The entries of an array that has a name.
ghost use Rattle.std.specs.Prelude.{◌≡◌, IfOk};
ghost use Rattle.std.specs.List.{list_any};
ghost use Rattle.fzn_names.specs.Signs.{is_negative};

use fzn_list::{Items, Shared};
use fzn_values::Term;
use std::alloc::{AllocError, Global};
use std::marker::Model;

/// Terms that each constraint of the name shares, and whether a constant below 0 is among them, which is asked of each such constraint.
/// Contracts see the list of terms.
#[derive(Drop)]
pub struct NamedList {
    terms: Shared<Term>,
    has_negative: bool,
}

impl Model for NamedList {
    ghost use Rattle.std.specs.Prelude.{List, ◌≡◌};
    ghost use Rattle.std.specs.List.{list_any};
    ghost use Rattle.fzn_values.specs.declared.term.Term.{Term};
    ghost use Rattle.fzn_names.specs.Signs.{is_negative};

    ghost Value = { List Term };

    ghost view = { λ it. it.terms };

    ghost invariant = { λ it. it.has_negative ≡ list_any is_negative it.terms };
}

impl NamedList {
    /// The list of these terms. It answers `Err` where memory runs out.
    pub fn new(alloc: Global, terms: Items<Term>) -> Result<NamedList, AllocError>
        ensures { IfOk result (λ list. list ≡ terms) }
    {
        let has_negative = is_any_negative(terms.as_slice());
        let terms = Shared::new(alloc, terms)?;
        Ok(NamedList {
            terms,
            has_negative,
        })
    }

    /// The terms in order.
    pub fn as_slice(&self) -> &[Term]
        ensures { result.now ≡ self.now }
    {
        self.terms.as_slice()
    }

    /// The terms, for one more owner. It answers `Err` only where no further owner can be counted.
    pub fn share(&self) -> Result<Shared<Term>, AllocError>
        ensures { IfOk result (λ list. list ≡ self.now) }
    {
        self.terms.share()
    }

    /// Whether a constant below 0 is among the terms.
    pub fn has_negative(&self) -> bool
        ensures { result ≡ list_any is_negative self.now }
    {
        self.has_negative
    }
}

/// Whether the term is a constant below 0.
pub fn is_negative(term: Term) -> bool
    ensures { result ≡ is_negative term }
{
    term.number() < 0
}

fn is_any_negative(mut terms: &[Term]) -> bool
    ensures { result ≡ list_any is_negative terms.now }
{
    while let [term, rest @ ..] = terms {
        if is_negative(*term) {
            return true;
        }
        terms = rest;
    }
    false
}
