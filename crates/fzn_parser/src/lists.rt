//! Lists: between commas up to a closing sign, and as many as are written.

ghost use Rattle.std.specs.Prelude.{◌<◌, ◌≤◌, ◌≢◌, ◌||◌, length, OnOk};
ghost use Rattle.fzn_lexer.specs.declared.token.Symbol.TheVariants.{End};
ghost use Rattle.fzn_tree.specs.Grammar as grammar;
ghost use Rattle.fzn_tree.specs.Piece.{each};
ghost use Rattle.fzn_parser.specs.GoesOn.{never};
ghost use Rattle.fzn_parser.specs.Lists.{IsListable, AreMany};
ghost use Rattle.fzn_parser.specs.Reads.{ReadsValue};
ghost use Rattle.fzn_parser.specs.Taken.{is};

use crate::cursor::Start::Sign;
use crate::cursor::{Stop, Tokens};
use fzn_lexer::Symbol;
use fzn_list::Items;
use std::alloc::Global;

/// What stands in a list, by its number from 0.
pub trait Part: Sized + Drop {
    ghost use Rattle.std.specs.Prelude.{ℕ, Bool, List};
    ghost use Rattle.fzn_lexer.specs.declared.token.Token.{Token};
    ghost use Rattle.fzn_tree.specs.Piece.{Piece};

    /// What it spells behind so many others.
    ghost spell: { ℕ → Self → List Piece };

    /// The tokens that go on it.
    ghost goes_on: { Token → Bool };

    /// The part that is next, behind so many others. The first fault where it is not written so, or where there are as many as there may be.
    fn read(alloc: Global, tokens: &mut Tokens<'_>, number: usize) -> Result<Self, Stop>
        ensures reads { ReadsValue (spell number) goes_on tokens.old result tokens.new }
        ensures shorter { OnOk result (length tokens.new < length tokens.old) };
}

/// The parts up to the closing sign, which is read too. The first fault where a part, a comma or that sign is missing.
pub fn listed<P: Part>(
    alloc: Global,
    tokens: &mut Tokens<'_>,
    close: Symbol,
) -> Result<Items<P>, Stop>
    requires listed { IsListable P.spell P.goes_on close }
    ensures reads { ReadsValue (grammar.listed P.spell close) never tokens.old result tokens.new }
    ensures shorter { OnOk result (length tokens.new < length tokens.old) }
{
    let mut parts = Items::new(alloc);
    if tokens.sees(Sign(close)) {
        tokens.symbol(close)?;
        return Ok(parts);
    }
    let first = P::read(alloc, tokens, 0)?;
    parts.push(first)?;
    'commas: while tokens.sees(Sign(Symbol::Comma)) {
        tokens.symbol(Symbol::Comma)?;
        let part = P::read(alloc, tokens, parts.len())?;
        parts.push(part)?;
    }
    tokens.symbol(close)?;
    Ok(parts)
}

/// As many parts as there are, each of which begins with this symbol.
pub fn many<P: Part>(
    alloc: Global,
    tokens: &mut Tokens<'_>,
    begins: Symbol,
) -> Result<Items<P>, Stop>
    requires many { AreMany P.spell P.goes_on begins }
    ensures reads { ReadsValue (each P.spell 0) (λ t. is begins t || P.goes_on t) tokens.old result tokens.new }
    ensures never_longer { OnOk result (length tokens.new ≤ length tokens.old) }
{
    let mut parts = Items::new(alloc);
    'parts: while tokens.sees(Sign(begins)) {
        let part = P::read(alloc, tokens, parts.len())?;
        parts.push(part)?;
    }
    Ok(parts)
}
