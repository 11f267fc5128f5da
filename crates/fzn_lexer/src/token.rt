//! Tokens, each with the part of the file that it is.

ghost use Rattle.std.specs.Prelude.{◌≡◌};

use fzn_list::Text;

/// A line and a column, both from 1, the column in bytes.
#[derive(Clone, Copy, Debug, PartialEq, Eq)]
pub struct Position {
    /// Counted from 1 by line feeds.
    pub line: u32,
    /// Counted from 1 in bytes.
    pub column: u32,
}

impl Position {
    ghost use Rattle.std.specs.Prelude.{◌+◌, ◌<◌, ◌^◌, length, []};
    ghost use Rattle.fzn_lexer.specs.Steps.{Moves, stepped};

    /// Where a file begins.
    pub const START: Position = Position { line: 1, column: 1 };

    /// The position behind this byte, which stands here.
    fn behind_byte(self, byte: u8) -> Position
        requires line { self.line + 1 < 2 ^ 32 }
        requires column { self.column + 1 < 2 ^ 32 }
        ensures { result ≡ stepped self byte }
    {
        if byte == b'\n' {
            Position {
                line: self.line + 1,
                column: 1,
            }
        } else {
            Position {
                line: self.line,
                column: self.column + 1,
            }
        }
    }

    /// The position behind these bytes, which stand here.
    pub fn behind(self, bytes: &[u8]) -> Position
        requires line { self.line + length bytes.now < 2 ^ 32 }
        requires column { self.column + length bytes.now < 2 ^ 32 }
        ensures { Moves self bytes.now result }
    {
        let mut position = self;
        for byte in bytes {
            position = position.behind_byte(*byte);
        }
        position
    }
}

/// The bytes from `start` up to `end`, counted from 0, and the position of the first.
#[derive(Clone, Copy, Debug, PartialEq, Eq)]
pub struct Span {
    /// The index of the first byte.
    pub start: usize,
    /// The index behind the last byte.
    pub end: usize,
    /// The position of the first byte.
    pub position: Position,
}

/// A token that is spelled in one way alone: a reserved word, a sign or the end of the file. The words, `Array` to `Var`, are spelled as
/// here in small letters.
#[derive(Clone, Copy, Debug, PartialEq, Eq)]
pub enum Symbol {
    Array,
    Bool,
    Constraint,
    False,
    Int,
    Maximize,
    Minimize,
    Of,
    Predicate,
    Satisfy,
    Set,
    Solve,
    True,
    Var,
    /// `(`
    OpenParen,
    /// `)`
    CloseParen,
    /// `[`
    OpenBracket,
    /// `]`
    CloseBracket,
    /// `{`
    OpenBrace,
    /// `}`
    CloseBrace,
    /// `,`
    Comma,
    /// `;`
    Semicolon,
    /// `:`
    Colon,
    /// `::`
    Colons,
    /// `=`
    Equals,
    /// `..`
    Dots,
    /// The end of the file, which has no bytes.
    End,
}

/// What a token is, with its text where that is not spelled in one way alone.
#[derive(Debug, Drop)]
pub enum Kind {
    /// A reserved word, a sign or the end of the file.
    Symbol(Symbol),
    /// A word that is not reserved.
    Name(Text),
    /// A number from -10^9 to 10^9.
    Int(i64),
    /// What stands between the quotes.
    Text(Text),
}

/// A token of a file.
#[derive(Debug, Drop)]
pub struct Token {
    /// What it is.
    pub kind: Kind,
    /// Where its bytes stand.
    pub span: Span,
}
