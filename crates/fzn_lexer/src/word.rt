//! Words: reserved words and names.

ghost use Rattle.std.specs.Prelude.{◌≡◌, ◌≢◌, ◌<◌, length, slice_index, true, IfSome, IfNone};
ghost use Rattle.fzn_lexer.specs.declared.token.Symbol.{Symbol};
ghost use Rattle.fzn_lexer.specs.declared.token.Symbol.TheVariants as symbols;
ghost use Rattle.fzn_lexer.specs.Bytes.{begins_word};
ghost use Rattle.fzn_lexer.specs.Lexemes.{spelling, IsWord};
ghost use Rattle.fzn_lexer.specs.Steps.{ReadsToken};

use crate::bytes::Class;
use crate::fault::FaultKind;
use crate::kept::TokenForm;
use crate::lexeme::Lexeme;
use crate::token::Symbol;

/// The reserved word that this is.
fn reserved(word: &[u8]) -> Option<Symbol>
    requires { IsWord word.now }
    ensures found { IfSome result (λ x. (x ≢ symbols.End) × (word.now ≡ spelling x)) }
    ensures none { IfNone result ((x : Symbol) → spelling x ≢ word.now) }
{
    let symbol = match word {
        b"array" => Symbol::Array,
        b"bool" => Symbol::Bool,
        b"constraint" => Symbol::Constraint,
        b"false" => Symbol::False,
        b"int" => Symbol::Int,
        b"maximize" => Symbol::Maximize,
        b"minimize" => Symbol::Minimize,
        b"of" => Symbol::Of,
        b"predicate" => Symbol::Predicate,
        b"satisfy" => Symbol::Satisfy,
        b"set" => Symbol::Set,
        b"solve" => Symbol::Solve,
        b"true" => Symbol::True,
        b"var" => Symbol::Var,
        _ => return None,
    };
    Some(symbol)
}

/// The word at the front of the bytes that are left, where a letter or `_` stands.
pub fn word(rest: &[u8]) -> Result<Lexeme, FaultKind>
    requires some { 0 < length rest.now }
    requires head { begins_word (slice_index rest.now 0) ≡ true }
    ensures { ReadsToken rest.now result }
{
    let len = Class::Word.run(rest);
    let text = &rest[..len];
    if text == b"float".as_slice() {
        return Err(FaultKind::Float);
    }
    let form = match reserved(text) {
        Some(symbol) => TokenForm::Symbol(symbol),
        None => TokenForm::Name,
    };
    Ok(Lexeme { form, len })
}
