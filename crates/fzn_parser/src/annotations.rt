//! Annotations. A number says how many more brackets may open.

ghost use Rattle.std.specs.Prelude.{◌<◌, ◌≤◌, ◌-◌, length, OnOk};
ghost use Rattle.fzn_lexer.specs.declared.token.Symbol.TheVariants.{OpenParen};
ghost use Rattle.fzn_tree.specs.Grammar as grammar;
ghost use Rattle.fzn_parser.specs.Annotations as spec;
ghost use Rattle.fzn_parser.specs.GoesOn.{never, goes_further};
ghost use Rattle.fzn_parser.specs.Reads.{ReadsValue};
ghost use Rattle.fzn_parser.specs.Taken.{is};

use crate::cursor::Start::Sign;
use crate::cursor::{Start, Stop, Tokens};
use crate::lists::{Part, many};
use crate::values::literal;
use fzn_lexer::{FaultKind, Symbol};
use fzn_list::{Items, LONGEST};
use fzn_tree::{Ann, AnnArg, AnnTerm};
use std::alloc::Global;

/// How deep the brackets and parentheses of one annotation nest.
const DEEPEST: usize = 64;

#[cycle(ann)]
fn ann(alloc: Global, tokens: &mut Tokens<'_>, levels: usize) -> Result<Ann, Stop>
    requires in_range { levels ≤ grammar.deepest }
    ensures reads { ReadsValue (grammar.ann (grammar.deepest - levels)) (is OpenParen) tokens.old result tokens.new }
    ensures shorter { OnOk result (length tokens.new < length tokens.old) }
{
    let name = tokens.name(alloc)?;
    if !tokens.sees(Sign(Symbol::OpenParen)) {
        return Ok(Ann { name, args: None });
    }
    if levels == 0 {
        return Err(tokens.refuse(FaultKind::TooDeep));
    }
    tokens.symbol(Symbol::OpenParen)?;
    let args = ann_args(alloc, tokens, levels - 1)?;
    Ok(Ann {
        name,
        args: Some(args),
    })
}

/// The arguments, up to the closing parenthesis.
#[cycle(ann)]
fn ann_args(
    alloc: Global,
    tokens: &mut Tokens<'_>,
    levels: usize,
) -> Result<Items<AnnArg<Ann>>, Stop>
    requires in_range { levels ≤ grammar.deepest }
    ensures reads { ReadsValue (spec.args_in (grammar.deepest - levels)) never tokens.old result tokens.new }
    ensures never_longer { OnOk result (length tokens.new ≤ length tokens.old) }
{
    let mut args = Items::new(alloc);
    if tokens.sees(Sign(Symbol::CloseParen)) {
        tokens.symbol(Symbol::CloseParen)?;
        return Ok(args);
    }
    let first = ann_arg(alloc, tokens, levels)?;
    args.push(first)?;
    'more_args: while tokens.sees(Sign(Symbol::Comma)) {
        tokens.symbol(Symbol::Comma)?;
        let arg = ann_arg(alloc, tokens, levels)?;
        args.push(arg)?;
    }
    tokens.symbol(Symbol::CloseParen)?;
    Ok(args)
}

#[cycle(ann)]
fn ann_arg(alloc: Global, tokens: &mut Tokens<'_>, levels: usize) -> Result<AnnArg<Ann>, Stop>
    requires in_range { levels ≤ grammar.deepest }
    ensures reads { ReadsValue (spec.arg_pieces (grammar.deepest - levels)) goes_further tokens.old result tokens.new }
    ensures never_longer { OnOk result (length tokens.new ≤ length tokens.old) }
{
    if !tokens.sees(Sign(Symbol::OpenBracket)) {
        return Ok(AnnArg::One(ann_term(alloc, tokens, levels)?));
    }
    if levels == 0 {
        return Err(tokens.refuse(FaultKind::TooDeep));
    }
    tokens.symbol(Symbol::OpenBracket)?;
    Ok(AnnArg::List(ann_terms(alloc, tokens, levels - 1)?))
}

/// The terms, up to the closing bracket.
#[cycle(ann)]
fn ann_terms(
    alloc: Global,
    tokens: &mut Tokens<'_>,
    levels: usize,
) -> Result<Items<AnnTerm<Ann>>, Stop>
    requires in_range { levels ≤ grammar.deepest }
    ensures reads { ReadsValue (spec.terms_pieces (grammar.deepest - levels)) never tokens.old result tokens.new }
    ensures never_longer { OnOk result (length tokens.new ≤ length tokens.old) }
{
    let mut terms = Items::new(alloc);
    if tokens.sees(Sign(Symbol::CloseBracket)) {
        tokens.symbol(Symbol::CloseBracket)?;
        return Ok(terms);
    }
    let first = ann_entry(alloc, tokens, levels, 0)?;
    terms.push(first)?;
    'more_terms: while tokens.sees(Sign(Symbol::Comma)) {
        tokens.symbol(Symbol::Comma)?;
        let term = ann_entry(alloc, tokens, levels, terms.len())?;
        terms.push(term)?;
    }
    tokens.symbol(Symbol::CloseBracket)?;
    Ok(terms)
}

/// The term that stands in brackets behind so many others.
#[cycle(ann)]
fn ann_entry(
    alloc: Global,
    tokens: &mut Tokens<'_>,
    levels: usize,
    number: usize,
) -> Result<AnnTerm<Ann>, Stop>
    requires in_range { levels ≤ grammar.deepest }
    ensures reads { ReadsValue (spec.entry_pieces (grammar.deepest - levels) number) goes_further tokens.old result tokens.new }
    ensures never_longer { OnOk result (length tokens.new ≤ length tokens.old) }
{
    if number < LONGEST {
        ann_term(alloc, tokens, levels)
    } else {
        Err(tokens.refuse_more(Start::Term))
    }
}

#[cycle(ann)]
fn ann_term(alloc: Global, tokens: &mut Tokens<'_>, levels: usize) -> Result<AnnTerm<Ann>, Stop>
    requires in_range { levels ≤ grammar.deepest }
    ensures reads { ReadsValue (spec.term_pieces (grammar.deepest - levels)) goes_further tokens.old result tokens.new }
    ensures never_longer { OnOk result (length tokens.new ≤ length tokens.old) }
{
    if tokens.sees(Start::Text) {
        let (text, position) = tokens.text(alloc)?;
        return Ok(AnnTerm::Text(text, position));
    }
    if tokens.sees(Start::Name) {
        return Ok(AnnTerm::Ann(ann(alloc, tokens, levels)?));
    }
    Ok(AnnTerm::Literal(literal(alloc, tokens)?))
}

/// An annotation behind its two colons.
impl Part for Ann {
    ghost spell = { spec.colons };

    ghost goes_on = { is OpenParen };

    fn read(alloc: Global, tokens: &mut Tokens<'_>, _number: usize) -> Result<Ann, Stop> {
        tokens.symbol(Symbol::Colons)?;
        ann(alloc, tokens, DEEPEST)
    }
}

/// As many annotations as there are, each behind two colons.
pub fn anns(alloc: Global, tokens: &mut Tokens<'_>) -> Result<Items<Ann>, Stop>
    ensures reads { ReadsValue grammar.anns goes_further tokens.old result tokens.new }
    ensures never_longer { OnOk result (length tokens.new ≤ length tokens.old) }
{
    many(alloc, tokens, Symbol::Colons)
}
