//! The parser.

ghost use Rattle.std.specs.Prelude.{◌≡◌, ◌<◌, ◌≤◌, ◌-◌, length, slice_get, Some};
ghost use Rattle.fzn_lexer.specs.declared.token.Token.{Token};
ghost use Rattle.fzn_lexer.specs.Tokens.{EndsInEnd};
ghost use Rattle.fzn_parser.specs.Parse.{IsTree, Parses, Finds};

use crate::cursor::{Refusal, Tokens};
use crate::items;
use fzn_lexer::{Fault, Halt, TokenList};
use fzn_tree::Tree;
use std::alloc::Global;

/// The fault at the token with which so many are left.
fn fault_of(tokens: &TokenList<'_>, refusal: Refusal) -> Fault
    requires some { 0 < refusal.left }
    requires in_range { refusal.left ≤ length tokens.now }
    ensures kind { result.kind ≡ refusal.kind }
    ensures position { (token : Token) → slice_get tokens.now (length tokens.now - refusal.left) ≡ Some token → result.position ≡ token.span.position }
{
    Fault {
        kind: refusal.kind,
        position: tokens.position(tokens.len() - refusal.left),
    }
}

/// The tree that the tokens spell, the last of which is the end of the file, or the first fault: `Syntax`, `TooDeep` or `TooMany`, and
/// `Syntax` before the others at one token. It answers `Halt::Memory` where memory runs out.
pub fn parse(alloc: Global, tokens: &TokenList<'_>) -> Result<Tree, Halt<Fault>>
    requires { EndsInEnd tokens.now }
    ensures right { Parses tokens.now result }
    ensures only { (t : Tree) → IsTree tokens.now t → Finds t result }
{
    match items::tree(alloc, &mut Tokens::new(tokens)) {
        Ok(tree) => Ok(tree),
        Err(Halt::Memory) => Err(Halt::Memory),
        Err(Halt::Fault(refusal)) => Err(Halt::Fault(fault_of(tokens, refusal))),
    }
}
