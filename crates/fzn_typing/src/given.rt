// What the arguments of a constraint stand for.
ghost use Rattle.std.specs.Prelude.{◌≡◌, Some, IfOk};
ghost use Rattle.std.specs.List.{All, list_any};
ghost use Rattle.fzn_names.specs.Known.{known};
ghost use Rattle.fzn_typing.specs.Arguments.{argument_term, terms_at, set_at, number_given, numbers_at, length_at, has_lengths, has_negative};
ghost use Rattle.fzn_typing.specs.Limits.{IsArgWithin};
ghost use Rattle.fzn_values.specs.Term.{weighted};
ghost use Rattle.fzn_names.specs.Values.{entry_terms};
ghost use Rattle.fzn_names.specs.Signs.{is_negative};

use fzn_domain::Domain;
use fzn_list::{Items, Shared};
use fzn_meaning::Sum;
use fzn_names::{
    Names, array_of, has_negative_entry, is_negative, list_of, no_values, set_of, term_of, terms_of,
};
use fzn_registry::Lengths;
use fzn_tree::{Arg, Basic};
use fzn_values::{Rows, Term};
use std::alloc::{AllocError, Global};

/// The term that is the argument at this place.
pub fn term_at(names: &Names, args: &[Arg], i: usize) -> Term
    ensures { result ≡ argument_term (known names.now) args.now i }
{
    match args.get(i) {
        Some(Arg::Basic(basic)) => term_of(names, basic),
        _ => Term::Constant(0),
    }
}

/// The terms of the list that is the argument at this place.
pub fn terms_at(
    alloc: Global,
    names: &Names,
    args: &[Arg],
    i: usize,
) -> Result<Shared<Term>, AllocError>
    ensures { IfOk result (λ terms. terms ≡ terms_at (known names.now) args.now i) }
{
    match args.get(i) {
        Some(Arg::Basic(basic)) => list_of(alloc, names, basic),
        Some(Arg::Array(array)) => {
            let terms = terms_of(alloc, names, array.entries.as_slice())?;
            Shared::new(alloc, terms)
        }
        None => Shared::new(alloc, Items::new(alloc)),
    }
}

/// The set that is the argument at this place.
pub fn set_at(alloc: Global, names: &Names, args: &[Arg], i: usize) -> Result<Domain, AllocError>
    requires { All IsArgWithin args.now }
    ensures { IfOk result (λ set. set ≡ set_at (known names.now) args.now i) }
{
    match args.get(i) {
        Some(Arg::Basic(basic)) => set_of(alloc, names, basic),
        _ => no_values(alloc),
    }
}

// ---- numbers

/// The number that is the argument at this place.
pub fn number_at(names: &Names, args: &[Arg], i: usize) -> i64
    ensures { result ≡ number_given (known names.now) args.now i }
{
    term_at(names, args, i).number()
}

/// The numbers of the list that is the argument at this place.
pub fn numbers_at(alloc: Global, names: &Names, args: &[Arg], i: usize) -> Result<Rows, AllocError>
    ensures { IfOk result (λ numbers. numbers ≡ numbers_at (known names.now) args.now i) }
{
    Ok(Rows::new(terms_at(alloc, names, args, i)?))
}

/// Each number of the first list with the term of the second that it is multiplied with.
pub fn sum_of(alloc: Global, names: &Names, args: &[Arg]) -> Result<Sum, AllocError>
    ensures { IfOk result (λ sum. sum ≡ weighted (terms_at (known names.now) args.now 0) (terms_at (known names.now) args.now 1)) }
{
    let numbers = terms_at(alloc, names, args, 0)?;
    let terms = terms_at(alloc, names, args, 1)?;
    Ok(Sum::new(numbers, terms))
}

// ---- lengths and signs

fn length_at(names: &Names, args: &[Arg], i: usize) -> usize
    ensures { result ≡ length_at (known names.now) args.now i }
{
    match args.get(i) {
        Some(Arg::Basic(basic)) => array_of(names, basic).len(),
        Some(Arg::Array(array)) => array.entries.len(),
        None => 0,
    }
}

/// Whether the lists among the arguments have lengths as they are wanted.
pub fn has_lengths(names: &Names, wanted: Lengths, args: &[Arg]) -> bool
    ensures { result ≡ has_lengths (known names.now) wanted args.now }
{
    match wanted {
        Lengths::Free => true,
        Lengths::SameLength(a, b) => length_at(names, args, a) == length_at(names, args, b),
        Lengths::NotEmpty(a) => 0 < length_at(names, args, a),
        Lengths::Table { row, table } => {
            let width = length_at(names, args, row);
            0 < width && length_at(names, args, table) % width == 0
        }
        Lengths::Tasks(a, b, c) => {
            let tasks = length_at(names, args, b);
            length_at(names, args, a) == tasks && tasks == length_at(names, args, c)
        }
    }
}

fn has_negative_value(names: &Names, mut entries: &[Basic]) -> bool
    ensures { result ≡ list_any is_negative (entry_terms (known names.now) entries.now) }
{
    while let [basic, rest @ ..] = entries {
        if is_negative(term_of(names, basic)) {
            return true;
        }
        entries = rest;
    }
    false
}

fn has_negative(names: &Names, args: &[Arg], i: usize) -> bool
    ensures { result ≡ has_negative (known names.now) args.now i }
{
    match args.get(i) {
        Some(Arg::Basic(basic)) => {
            is_negative(term_of(names, basic)) || has_negative_entry(names, basic)
        }
        Some(Arg::Array(array)) => has_negative_value(names, array.entries.as_slice()),
        None => false,
    }
}

/// Whether a constant below 0 is, or is among, one of the arguments at these places.
pub fn has_negatives(names: &Names, args: &[Arg], mut places: &[usize]) -> bool
    ensures { result ≡ list_any (has_negative (known names.now) args.now) places.now }
{
    while let [place, rest @ ..] = places {
        if has_negative(names, args, *place) {
            return true;
        }
        places = rest;
    }
    false
}
