//! The positions of a file.

ghost use Rattle.std.specs.Prelude.{◌≡◌, ◌≤◌, length, take};
ghost use Rattle.fzn_lexer.specs.Positions.{position_after};
ghost use Rattle.fzn_lexer.specs.Tokens.{max_file};

use crate::token::Position;
use std::marker::Model;

/// The position of the byte with an index.
#[derive(Clone, Copy)]
pub struct Known {
    /// How many bytes of the file stand before it.
    pub index: usize,
    /// Its line and column.
    pub position: Position,
}

/// The bytes of a file, whose positions are best asked from the left to the right.
#[derive(Drop)]
pub struct Positions<'a> {
    bytes: &'a [u8],
    known: Known,
}

impl<'a> Model for Positions<'a> {
    ghost use Rattle.std.specs.Prelude.{ℕ, List, ◌≡◌, ◌≤◌, length, take};
    ghost use Rattle.fzn_lexer.specs.Positions.{position_after};
    ghost use Rattle.fzn_lexer.specs.Tokens.{max_file};

    ghost Value = { List ℕ };

    ghost view = { λ p. p.bytes.now };

    ghost invariant = { λ p. (length p.bytes.now ≤ max_file) × (p.known.position ≡ position_after (take p.known.index p.bytes.now)) };
}

impl<'a> Positions<'a> {
    /// The positions of these bytes, which are at most `MAX_FILE`.
    pub fn new(bytes: &'a [u8]) -> Positions<'a>
        requires { length bytes.now ≤ max_file }
        ensures { result ≡ bytes.now }
    {
        Positions {
            bytes,
            known: Known {
                index: 0,
                position: Position::START,
            },
        }
    }

    /// The bytes of the file.
    pub fn bytes(&self) -> &'a [u8]
        ensures { result.now ≡ self.now }
    {
        self.bytes
    }

    /// A position before or at this index.
    fn known_before(&self, index: usize) -> Known
        ensures short { length self.now ≤ max_file }
        ensures before { result.index ≤ index }
        ensures position { result.position ≡ position_after (take result.index self.now) }
    {
        if self.known.index <= index {
            self.known
        } else {
            Known {
                index: 0,
                position: Position::START,
            }
        }
    }

    /// The position of the byte with this index, counted from 0, or that behind the last. It goes on from the position asked for before, and
    /// over the file from its start where that lies behind.
    pub fn of(&mut self, index: usize) -> Position
        ensures position { result ≡ position_after (take index self.old) }
        ensures same { self.new ≡ self.old }
    {
        let index = index.min(self.bytes.len());
        let known = self.known_before(index);
        let position = known.position.behind(&self.bytes[known.index..index]);
        self.known = Known { index, position };
        position
    }
}
