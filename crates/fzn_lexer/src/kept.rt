//! Tokens as they are kept: the text of each stands in the file.

ghost use Rattle.std.specs.Prelude.{◌≡◌, slice_range};
ghost use Rattle.fzn_lexer.specs.Kept.{inside};

use crate::token::Symbol;

/// What a token is, beside its text.
#[derive(Clone, Copy, Debug)]
pub enum TokenForm {
    /// A reserved word, a sign or the end of the file.
    Symbol(Symbol),
    /// A word that is not reserved.
    Name,
    /// A number from -10^9 to 10^9.
    Int(i32),
    /// A string.
    Text,
}

impl TokenForm {
    ghost use Rattle.std.specs.Prelude.{ℕ, List};
    ghost use Rattle.fzn_lexer.specs.Kept.{kind_in};
    ghost use Rattle.fzn_lexer.specs.Kinds.{is_symbol};

    /// Whether it is this symbol.
    pub fn is(self, symbol: Symbol) -> bool
        ensures { (text : List ℕ) → result ≡ is_symbol symbol (kind_in self text) }
    {
        match self {
            TokenForm::Symbol(held) => held == symbol,
            _ => false,
        }
    }
}

/// A token, the bytes of a file from `start` up to `end`, both counted from 0 and at most `MAX_FILE`.
#[derive(Clone, Copy, Debug)]
pub struct Kept {
    /// What it is.
    pub form: TokenForm,
    /// The index of its first byte.
    pub start: u32,
    /// The index behind its last byte.
    pub end: u32,
}

impl Kept {
    /// The token's bytes, in the file that has these. Where the file ends before the token does, the bytes up to the end.
    pub fn text<'a>(&self, bytes: &'a [u8]) -> &'a [u8]
        ensures { result.now ≡ slice_range bytes.now self.now.start self.now.end }
    {
        let end = bytes.len().min(self.end as usize);
        let start = end.min(self.start as usize);
        &bytes[start..end]
    }
}

/// What stands between the quotes, the first and the last byte. Nothing where there are fewer than two bytes.
pub fn inside(text: &[u8]) -> &[u8]
    ensures { result.now ≡ inside text.now }
{
    if text.len() < 2 {
        &text[..0]
    } else {
        &text[1..text.len() - 1]
    }
}
