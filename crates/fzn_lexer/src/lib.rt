//! From the bytes of a FlatZinc file to its tokens.
//!
//! In: bytes. Out: the list of their tokens, each with its position, or the first fault. Proved against `specs/Tokens.antt`: the tokens
//! are slices of the file, in order, each the longest at its position, with white space and comments between them.
#![tactic(auto)]

mod bytes;
mod fault;
mod gap;
mod halt;
mod kept;
mod law;
mod lexeme;
mod lexer;
mod list;
mod number;
mod positions;
mod sign;
mod string;
mod token;
mod word;

pub use bytes::Class;
pub use fault::{Fault, FaultKind};
pub use halt::Halt;
pub use kept::{Kept, TokenForm, inside};
pub use law::one_reading;
pub use lexer::{MAX_FILE, tokens};
pub use list::{Parts, TokenList};
pub use positions::Positions;
pub use token::{Kind, Position, Span, Symbol, Token};
