//! The tokens of a file as a list.

ghost use Rattle.std.specs.Prelude.{◌≡◌, length, IfOk, slice_get};
ghost use Rattle.fzn_lexer.specs.Kept.{kind_in, token_of, tokens_of};

use crate::kept::{Kept, TokenForm, inside};
use crate::positions::Positions;
use crate::token::{Kind, Position, Span, Token};
use fzn_list::{Items, Text};
use std::alloc::{AllocError, Global};
use std::marker::Model;

/// The tokens of a file, which contracts see as their list. Each takes 16 bytes, since its text stands in the file.
#[derive(Drop)]
pub struct TokenList<'a> {
    bytes: &'a [u8],
    kept: Items<Kept>,
}

impl<'a> Model for TokenList<'a> {
    ghost use Rattle.std.specs.Prelude.{List, ◌≤◌, length};
    ghost use Rattle.fzn_lexer.specs.declared.token.Token.{Token};
    ghost use Rattle.fzn_lexer.specs.Kept.{tokens_of};
    ghost use Rattle.fzn_lexer.specs.Tokens.{max_file};

    ghost Value = { List Token };

    ghost view = { λ t. tokens_of t.bytes.now t.kept };

    ghost invariant = { λ t. length t.bytes.now ≤ max_file };
}

/// What a token with this text is.
fn kind_in(alloc: Global, form: TokenForm, text: &[u8]) -> Result<Kind, AllocError>
    ensures { IfOk result (λ kind. kind ≡ kind_in form text.now) }
{
    match form {
        TokenForm::Symbol(symbol) => Ok(Kind::Symbol(symbol)),
        TokenForm::Name => Ok(Kind::Name(Text::from_slice(alloc, text)?)),
        TokenForm::Int(value) => Ok(Kind::Int(i64::from(value))),
        TokenForm::Text => Ok(Kind::Text(Text::from_slice(alloc, inside(text))?)),
    }
}

/// The token with its text and its position.
fn token_of(alloc: Global, file: &mut Positions<'_>, kept: &Kept) -> Result<Token, AllocError>
    ensures { IfOk result (λ token. token ≡ token_of file.old kept.now) }
{
    let kind = kind_in(alloc, kept.form, kept.text(file.bytes()))?;
    let start = kept.start as usize;
    let span = Span {
        start,
        end: kept.end as usize,
        position: file.of(start),
    };
    Ok(Token { kind, span })
}

/// A file, and its tokens as they are kept, in order.
#[derive(Drop)]
pub struct Parts<'a> {
    /// The bytes, and the positions of tokens among them.
    pub file: Positions<'a>,
    /// What each token is, and where it begins and ends.
    pub kept: &'a [Kept],
}

impl<'a> TokenList<'a> {
    ghost use Rattle.std.specs.Prelude.{◌≤◌, ◌<◌, Some};
    ghost use Rattle.fzn_lexer.specs.declared.token.Token.{Token};
    ghost use Rattle.fzn_lexer.specs.Tokens.{max_file};

    /// The tokens of these bytes, which are at most `MAX_FILE`.
    pub fn new(bytes: &'a [u8], kept: Items<Kept>) -> TokenList<'a>
        requires { length bytes.now ≤ max_file }
        ensures { result ≡ tokens_of bytes.now kept }
    {
        TokenList { bytes, kept }
    }

    /// How many tokens there are, the end among them.
    pub fn len(&self) -> usize
        ensures { result ≡ length self.now }
    {
        self.kept.len()
    }

    /// The file and the tokens, to be read from the left to the right.
    pub fn parts(&self) -> Parts<'_>
        ensures { tokens_of result.file result.kept.now ≡ self.now }
    {
        Parts {
            file: Positions::new(self.bytes),
            kept: self.kept.as_slice(),
        }
    }

    /// The position of the token with this index, counted from 0. It goes over the file up to the token.
    pub fn position(&self, index: usize) -> Position
        requires { index < length self.now }
        ensures { (token : Token) → slice_get self.now index ≡ Some token → result ≡ token.span.position }
    {
        let kept = self.kept.as_slice();
        Positions::new(self.bytes).of(kept[index].start as usize)
    }

    /// The token with this index, counted from 0, with its text, and none behind the last. It goes over the file up to the token. It
    /// answers `Err` where memory runs out.
    pub fn get(&self, alloc: Global, index: usize) -> Result<Option<Token>, AllocError>
        ensures { IfOk result (λ token. token ≡ slice_get self.now index) }
    {
        match self.kept.as_slice().get(index) {
            None => Ok(None),
            Some(kept) => Ok(Some(token_of(alloc, &mut Positions::new(self.bytes), kept)?)),
        }
    }
}
