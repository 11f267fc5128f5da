//! Predicate items.

ghost use Rattle.std.specs.Prelude.{◌<◌, ◌≤◌, length, OnOk};
ghost use Rattle.fzn_lexer.specs.declared.token.Symbol.TheVariants.{Array, Var};
ghost use Rattle.fzn_tree.specs.Grammar as grammar;
ghost use Rattle.fzn_parser.specs.GoesOn.{never};
ghost use Rattle.fzn_parser.specs.Reads.{ReadsValue};
ghost use Rattle.fzn_parser.specs.Taken.{is};

use crate::cursor::Start::Sign;
use crate::cursor::{Stop, Tokens};
use crate::lists::{Part, listed};
use crate::types::{base, index};
use fzn_lexer::Symbol;
use fzn_list::Items;
use fzn_tree::{Indices, Predicate, PredicateParam};
use std::alloc::Global;

fn index_set(tokens: &mut Tokens<'_>) -> Result<Indices, Stop>
    ensures reads { ReadsValue grammar.index_set never tokens.old result tokens.new }
    ensures never_longer { OnOk result (length tokens.new ≤ length tokens.old) }
{
    if tokens.sees(Sign(Symbol::Int)) {
        tokens.symbol(Symbol::Int)?;
        return Ok(Indices::Any);
    }
    Ok(Indices::Size(index(tokens)?))
}

/// The index set of an array in a predicate, if an array is written.
fn predicate_array(tokens: &mut Tokens<'_>) -> Result<Option<Indices>, Stop>
    ensures reads { ReadsValue grammar.predicate_array (is Array) tokens.old result tokens.new }
    ensures never_longer { OnOk result (length tokens.new ≤ length tokens.old) }
{
    if !tokens.sees(Sign(Symbol::Array)) {
        return Ok(None);
    }
    tokens.symbol(Symbol::Array)?;
    tokens.symbol(Symbol::OpenBracket)?;
    let indices = index_set(tokens)?;
    tokens.symbol(Symbol::CloseBracket)?;
    tokens.symbol(Symbol::Of)?;
    Ok(Some(indices))
}

/// Whether `var` is written.
fn optional_var(tokens: &mut Tokens<'_>) -> Result<bool, Stop>
    ensures reads { ReadsValue grammar.optional_var (is Var) tokens.old result tokens.new }
    ensures never_longer { OnOk result (length tokens.new ≤ length tokens.old) }
{
    if !tokens.sees(Sign(Symbol::Var)) {
        return Ok(false);
    }
    tokens.symbol(Symbol::Var)?;
    Ok(true)
}

impl Part for PredicateParam {
    ghost spell = { λ n. grammar.predicate_param };

    ghost goes_on = { never };

    fn read(
        alloc: Global,
        tokens: &mut Tokens<'_>,
        _number: usize,
    ) -> Result<PredicateParam, Stop> {
        let array = predicate_array(tokens)?;
        let is_var = optional_var(tokens)?;
        let base = base(alloc, tokens)?;
        tokens.symbol(Symbol::Colon)?;
        let name = tokens.name(alloc)?;
        Ok(PredicateParam {
            array,
            is_var,
            base,
            name,
        })
    }
}

impl Part for Predicate {
    ghost spell = { λ n. grammar.predicate };

    ghost goes_on = { never };

    fn read(alloc: Global, tokens: &mut Tokens<'_>, _number: usize) -> Result<Predicate, Stop> {
        let position = tokens.symbol_position(Symbol::Predicate)?;
        let name = tokens.name(alloc)?;
        tokens.symbol(Symbol::OpenParen)?;
        let params: Items<PredicateParam> = listed(alloc, tokens, Symbol::CloseParen)?;
        tokens.symbol(Symbol::Semicolon)?;
        Ok(Predicate {
            position,
            name,
            params,
        })
    }
}
