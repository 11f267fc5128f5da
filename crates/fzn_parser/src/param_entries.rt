//! The entries of a parameter that is an array.

ghost use Rattle.fzn_tree.specs.Grammar as grammar;
ghost use Rattle.fzn_parser.specs.GoesOn.{goes_further};

use crate::cursor::{Start, Stop, Tokens};
use crate::lists::Part;
use crate::values::literal;
use fzn_list::LONGEST;
use fzn_tree::Literal;
use std::alloc::Global;

/// An entry of a parameter that is an array.
impl Part for Literal {
    ghost spell = { grammar.param_entry };

    ghost goes_on = { goes_further };

    fn read(alloc: Global, tokens: &mut Tokens<'_>, number: usize) -> Result<Literal, Stop> {
        if number < LONGEST {
            literal(alloc, tokens)
        } else {
            Err(tokens.refuse_more(Start::Literal))
        }
    }
}
