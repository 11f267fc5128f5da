//! The tokens of a file.

ghost use Rattle.std.specs.Prelude.{◌≡◌, ◌≤◌, length, IfOk};
ghost use Rattle.fzn_lexer.specs.Steps.{StandsNext};
ghost use Rattle.fzn_lexer.specs.Tokens.{HasKnownBytes, Lexes, EndsInEnd};

use crate::bytes::Class;
use crate::fault::{Fault, FaultKind};
use crate::gap::gap_len;
use crate::halt::Halt;
use crate::kept::{Kept, TokenForm};
use crate::lexeme::read_lexeme;
use crate::list::TokenList;
use crate::token::{Position, Symbol};
use fzn_list::Items;
use std::alloc::Global;

/// The most bytes of a file.
pub const MAX_FILE: usize = 16_777_216;

/// What stands next in a file.
#[derive(Clone, Copy)]
pub enum Next {
    Token(Kept),
    End(Kept),
}

/// What stands next, from a byte on where a token may begin.
fn read_next(bytes: &[u8], from: usize) -> Result<Next, Fault>
    requires known { HasKnownBytes bytes.now }
    requires from { from ≤ length bytes.now }
    ensures { StandsNext bytes.now from result }
{
    let start = from + gap_len(&bytes[from..]);
    if start == bytes.len() {
        return Ok(Next::End(Kept {
            form: TokenForm::Symbol(Symbol::End),
            start: start as u32,
            end: start as u32,
        }));
    }
    match read_lexeme(&bytes[start..]) {
        Ok(found) => Ok(Next::Token(Kept {
            form: found.form,
            start: start as u32,
            end: (start + found.len) as u32,
        })),
        Err(kind) => Err(Fault {
            kind,
            position: Position::START.behind(&bytes[..start]),
        }),
    }
}

/// The tokens of a file all of whose bytes may stand in one.
fn scan(alloc: Global, bytes: &[u8]) -> Result<TokenList<'_>, Halt<Fault>>
    requires { HasKnownBytes bytes.now }
    ensures { Lexes bytes.now result }
{
    let mut kept = Items::new(alloc);
    let mut from = 0;
    loop {
        match read_next(bytes, from) {
            Ok(Next::Token(token)) => {
                from = token.end as usize;
                kept.push(token)?;
            }
            Ok(Next::End(token)) => {
                kept.push(token)?;
                return Ok(TokenList::new(bytes, kept));
            }
            Err(fault) => return Err(Halt::Fault(fault)),
        }
    }
}

/// The tokens of a file, or its first fault: `FileTooLong` is tested first, then `BadByte` over the whole file, and then `BadToken`,
/// `Float` and `LiteralRange` token by token. It answers `Halt::Memory` where memory runs out.
pub fn tokens(alloc: Global, bytes: &[u8]) -> Result<TokenList<'_>, Halt<Fault>>
    ensures right { Lexes bytes.now result }
    ensures ends { IfOk result EndsInEnd }
{
    if bytes.len() > MAX_FILE {
        return Err(Halt::Fault(Fault {
            kind: FaultKind::FileTooLong,
            position: Position::START,
        }));
    }
    let known = Class::Known.run(bytes);
    if known < bytes.len() {
        return Err(Halt::Fault(Fault {
            kind: FaultKind::BadByte,
            position: Position::START.behind(&bytes[..known]),
        }));
    }
    scan(alloc, bytes)
}
