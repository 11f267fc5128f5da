// Annotations that say what is printed.
ghost use Rattle.std.specs.Prelude.{◌≡◌, ◌≤◌, ◌*◌, List, ◌∷◌, Some, is_some, map, filter, IfOk};
ghost use Rattle.std.specs.List.{list_all};
ghost use Rattle.fzn_domain.specs.IntSet.{width};
ghost use Rattle.fzn_meaning.specs.Meaning.{longest};
ghost use Rattle.fzn_names.specs.Annotations.{has_no_args, is_output_var, is_output_array, is_output, is_mark, is_marked, is_bad_mark, index_range, ranges_in, size_of, have_form, listed_terms, is_array_mark, is_bad_array_mark, position_of_ann, mark_faults};
ghost use Rattle.fzn_names.specs.Capped.{capped};
ghost use Rattle.fzn_tree.specs.declared.tree.Ann.{Ann, out-Ann};
ghost use Rattle.fzn_tree.specs.declared.tree.AnnTerm.{AnnTerm};
ghost use Rattle.fzn_names.specs.Positions.{first};

use fzn_lexer::Position;
use fzn_list::Items;
use fzn_meaning::IndexRange;
use fzn_tree::{Ann, AnnArg, AnnTerm, Literal};
use std::alloc::{AllocError, Global};

fn has_no_args(args: &Option<Items<AnnArg<Ann>>>) -> bool
    ensures { result ≡ has_no_args args.now }
{
    match args {
        None => true,
        Some(args) => args.as_slice().is_empty(),
    }
}

fn is_output_var(ann: &Ann) -> bool
    ensures { result ≡ is_output_var ann.now }
{
    ann.name.text.as_slice() == b"output_var".as_slice()
}

fn is_output_array(ann: &Ann) -> bool
    ensures { result ≡ is_output_array ann.now }
{
    ann.name.text.as_slice() == b"output_array".as_slice()
}

fn is_output(ann: &Ann) -> bool
    ensures { result ≡ is_output ann.now }
{
    is_output_var(ann) || is_output_array(ann)
}

fn is_mark(ann: &Ann) -> bool
    ensures { result ≡ is_mark ann.now }
{
    is_output_var(ann) && has_no_args(&ann.args)
}

/// Whether the variable with these annotations is printed.
pub fn is_marked(mut anns: &[Ann]) -> bool
    ensures { result ≡ is_marked anns.now }
{
    while let [ann, rest @ ..] = anns {
        if is_mark(ann) {
            return true;
        }
        anns = rest;
    }
    false
}

// ---- arrays

fn range_of(term: &AnnTerm<Ann>) -> Option<IndexRange>
    ensures { result ≡ index_range term.now }
{
    match term {
        AnnTerm::Literal(Literal::Range(range)) => Some(IndexRange {
            low: range.low.value,
            high: range.high,
        }),
        AnnTerm::Literal(_) => None,
        AnnTerm::Text(..) => None,
        AnnTerm::Ann(_) => None,
    }
}

fn are_ranges(mut terms: &[AnnTerm<Ann>]) -> bool
    ensures { result ≡ list_all (λ term. is_some (index_range term)) terms.now }
{
    while let [term, rest @ ..] = terms {
        if range_of(term).is_none() {
            return false;
        }
        terms = rest;
    }
    true
}

fn width(range: IndexRange) -> u128
    ensures { result ≡ width range.low range.high }
{
    if range.high < range.low {
        0
    } else {
        (range.high as i128 - range.low as i128 + 1) as u128
    }
}

/// The number, or one more than an array's greatest size where it is greater.
#[tactic(auto, unfolding(crate::specs::Capped::capped))]
fn capped(number: u128) -> u128
    ensures value { result ≡ capped number }
    ensures low { result ≤ 100001 }
{
    if number > 100_001 { 100_001 } else { number }
}

/// The size with one more factor, where the term is a range.
fn grown(size: u128, term: &AnnTerm<Ann>) -> u128
    requires { size ≤ 100001 }
    ensures value { (more : List (AnnTerm Ann)) → capped (result * size_of (ranges_in more)) ≡ capped (size * size_of (ranges_in (term.now ∷ more))) }
    ensures low { result ≤ 100001 }
{
    match range_of(term) {
        Some(range) => capped(size * width(range)),
        None => size,
    }
}

/// How many indices the ranges have together, up to one more than an array's greatest size.
fn capped_size(mut terms: &[AnnTerm<Ann>]) -> u128
    ensures { result ≡ capped (size_of (ranges_in terms.now)) }
{
    let mut size = 1;
    while let [term, rest @ ..] = terms {
        size = grown(size, term);
        terms = rest;
    }
    size
}

#[tactic(auto, using(crate::proofs::SizeLemmas::sizes))]
fn have_form(count: usize, terms: &[AnnTerm<Ann>]) -> bool
    requires { count ≤ longest }
    ensures { result ≡ have_form count terms.now }
{
    are_ranges(terms) && 0 < terms.len() && terms.len() < 7 && capped_size(terms) == count as u128
}

fn listed_terms(args: &Option<Items<AnnArg<Ann>>>) -> &[AnnTerm<Ann>]
    ensures { result.now ≡ listed_terms args.now }
{
    match args {
        None => &[],
        Some(args) => match args.as_slice() {
            [AnnArg::List(terms)] => terms.as_slice(),
            _ => &[],
        },
    }
}

/// Whether it marks an array with this many entries.
pub fn is_array_mark(count: usize, ann: &Ann) -> bool
    requires { count ≤ longest }
    ensures { result ≡ is_array_mark count ann.now }
{
    is_output_array(ann) && have_form(count, listed_terms(&ann.args))
}

/// The ranges of a mark of an array.
pub fn ranges_of(alloc: Global, ann: &Ann) -> Result<Items<IndexRange>, AllocError>
    ensures { IfOk result (λ ranges. ranges ≡ ranges_in (listed_terms (out-Ann ann.now).args)) }
{
    let mut ranges = Items::new(alloc);
    let mut terms = listed_terms(&ann.args);
    while let [term, rest @ ..] = terms {
        if let Some(range) = range_of(term) {
            ranges.push(range)?;
        }
        terms = rest;
    }
    Ok(ranges)
}

// ---- faults

fn first_output(mut anns: &[Ann]) -> Option<Position>
    ensures { result ≡ first (map position_of_ann (filter is_output anns.now)) }
{
    while let [ann, rest @ ..] = anns {
        if is_output(ann) {
            return Some(ann.name.position);
        }
        anns = rest;
    }
    None
}

/// The first fault of the annotations of a single variable.
pub fn mark_fault(mut anns: &[Ann]) -> Option<Position>
    ensures { result ≡ first (mark_faults is_bad_mark anns.now) }
{
    while let [ann, rest @ ..] = anns {
        if is_output(ann) {
            if is_mark(ann) {
                return first_output(rest);
            }
            return Some(ann.name.position);
        }
        anns = rest;
    }
    None
}

/// The first fault of the annotations of an array with this many entries.
pub fn array_mark_fault(count: usize, mut anns: &[Ann]) -> Option<Position>
    requires { count ≤ longest }
    ensures { result ≡ first (mark_faults (is_bad_array_mark count) anns.now) }
{
    while let [ann, rest @ ..] = anns {
        if is_output(ann) {
            if is_array_mark(count, ann) {
                return first_output(rest);
            }
            return Some(ann.name.position);
        }
        anns = rest;
    }
    None
}
