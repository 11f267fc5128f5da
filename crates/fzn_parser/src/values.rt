//! Literals and names, and the arguments of constraints.

ghost use Rattle.std.specs.Prelude.{ℕ, ◌<◌, ◌≤◌, length, OnOk};
ghost use Rattle.fzn_lexer.specs.declared.token.Symbol.TheVariants.{CloseBrace};
ghost use Rattle.fzn_tree.specs.Grammar as grammar;
ghost use Rattle.fzn_parser.specs.GoesOn.{never, goes_further};
ghost use Rattle.fzn_parser.specs.Reads.{ReadsValue};

use crate::cursor::Start::Sign;
use crate::cursor::{Start, Stop, Tokens};
use crate::lists::{Part, listed};
use fzn_lexer::Symbol;
use fzn_list::{Items, LONGEST};
use fzn_tree::{Arg, Array, Basic, Listed, Literal, Range, Values};
use std::alloc::Global;

/// How many values a set may list.
const MOST_LISTED: usize = 65_536;

/// A listed value of a set.
impl Part for i64 {
    ghost spell = { grammar.listed_value };

    ghost goes_on = { never };

    fn read(_alloc: Global, tokens: &mut Tokens<'_>, number: usize) -> Result<i64, Stop> {
        if number < MOST_LISTED {
            tokens.number()
        } else {
            Err(tokens.refuse_more(Start::Int))
        }
    }
}

/// The values up to the closing brace.
fn listed_values(alloc: Global, tokens: &mut Tokens<'_>) -> Result<Items<i64>, Stop>
    ensures reads { ReadsValue (grammar.listed grammar.listed_value CloseBrace) never tokens.old result tokens.new }
    ensures never_longer { OnOk result (length tokens.new ≤ length tokens.old) }
{
    listed(alloc, tokens, Symbol::CloseBrace)
}

/// Values in braces, or a range.
pub fn values(alloc: Global, tokens: &mut Tokens<'_>) -> Result<Values, Stop>
    ensures reads { ReadsValue grammar.values never tokens.old result tokens.new }
    ensures never_longer { OnOk result (length tokens.new ≤ length tokens.old) }
{
    if tokens.sees(Sign(Symbol::OpenBrace)) {
        tokens.symbol(Symbol::OpenBrace)?;
        return Ok(Values::Listed(listed_values(alloc, tokens)?));
    }
    let low = tokens.int()?;
    tokens.symbol(Symbol::Dots)?;
    let high = tokens.number()?;
    Ok(Values::Range(Range { low, high }))
}

/// A literal. A syntax fault where none is next, and too many at a listed value past 65,536.
pub fn literal(alloc: Global, tokens: &mut Tokens<'_>) -> Result<Literal, Stop>
    ensures reads { ReadsValue grammar.literal goes_further tokens.old result tokens.new }
    ensures shorter { OnOk result (length tokens.new < length tokens.old) }
{
    if tokens.sees(Sign(Symbol::True)) {
        return Ok(Literal::Bool(true, tokens.symbol_position(Symbol::True)?));
    }
    if tokens.sees(Sign(Symbol::False)) {
        return Ok(Literal::Bool(false, tokens.symbol_position(Symbol::False)?));
    }
    if tokens.sees(Sign(Symbol::OpenBrace)) {
        let position = tokens.symbol_position(Symbol::OpenBrace)?;
        let values = listed_values(alloc, tokens)?;
        return Ok(Literal::Set(position, Listed::new(alloc, values)?));
    }
    let low = tokens.int()?;
    if tokens.sees(Sign(Symbol::Dots)) {
        tokens.symbol(Symbol::Dots)?;
        let high = tokens.number()?;
        return Ok(Literal::Range(Range { low, high }));
    }
    Ok(Literal::Int(low))
}

/// A literal or a name. The faults of a literal where no name is next.
pub fn basic(alloc: Global, tokens: &mut Tokens<'_>) -> Result<Basic, Stop>
    ensures reads { ReadsValue grammar.basic goes_further tokens.old result tokens.new }
    ensures shorter { OnOk result (length tokens.new < length tokens.old) }
{
    if tokens.sees(Start::Name) {
        Ok(Basic::Name(tokens.name(alloc)?))
    } else {
        Ok(Basic::Literal(literal(alloc, tokens)?))
    }
}

/// An entry of an array.
impl Part for Basic {
    ghost spell = { grammar.entry };

    ghost goes_on = { goes_further };

    fn read(alloc: Global, tokens: &mut Tokens<'_>, number: usize) -> Result<Basic, Stop> {
        if number < LONGEST {
            basic(alloc, tokens)
        } else {
            Err(tokens.refuse_more(Start::Basic))
        }
    }
}

/// Entries in brackets. The faults of an entry, and too many at an entry past `LONGEST`.
pub fn array(alloc: Global, tokens: &mut Tokens<'_>) -> Result<Array, Stop>
    ensures reads { ReadsValue grammar.array never tokens.old result tokens.new }
    ensures shorter { OnOk result (length tokens.new < length tokens.old) }
{
    let position = tokens.symbol_position(Symbol::OpenBracket)?;
    let entries: Items<Basic> = listed(alloc, tokens, Symbol::CloseBracket)?;
    Ok(Array { position, entries })
}

fn arg(alloc: Global, tokens: &mut Tokens<'_>) -> Result<Arg, Stop>
    ensures reads { ReadsValue grammar.arg goes_further tokens.old result tokens.new }
    ensures shorter { OnOk result (length tokens.new < length tokens.old) }
{
    if tokens.sees(Sign(Symbol::OpenBracket)) {
        Ok(Arg::Array(array(alloc, tokens)?))
    } else {
        Ok(Arg::Basic(basic(alloc, tokens)?))
    }
}

impl Part for Arg {
    ghost spell = { λ n. grammar.arg };

    ghost goes_on = { goes_further };

    fn read(alloc: Global, tokens: &mut Tokens<'_>, _number: usize) -> Result<Arg, Stop> {
        arg(alloc, tokens)
    }
}
