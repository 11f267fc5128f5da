// Numbers, places and terms as text. Each call answers `Err` where memory runs out, and nothing is said of the text then.
ghost use Rattle.std.specs.Prelude.{◌≡◌, ◌++◌, OnOk};
ghost use Rattle.std.specs.Fmt.{decimal, signed_decimal};
ghost use Rattle.fzn_items.specs.Pieces.{bytes_text, span_text, position_text, mark_text, variable_text, number_text, term_text};

use fzn_domain::VarId;
use fzn_lexer::{Position, Span};
use fzn_values::Term;
use itoa::Buffer;
use std::alloc::AllocError;

/// Puts these bytes at the end.
pub fn push_bytes(text: &mut Vec<u8>, bytes: &[u8]) -> Result<(), AllocError>
    ensures { OnOk result (text.new.items ≡ text.old.items ++ bytes.now) }
{
    text.extend_from_slice(bytes)
}

pub fn push_number(text: &mut Vec<u8>, number: usize) -> Result<(), AllocError>
    ensures { OnOk result (text.new.items ≡ text.old.items ++ decimal number) }
{
    push_bytes(text, Buffer::new().format(number).as_bytes())
}

pub fn push_integer(text: &mut Vec<u8>, integer: i64) -> Result<(), AllocError>
    ensures { OnOk result (text.new.items ≡ text.old.items ++ signed_decimal integer) }
{
    push_bytes(text, Buffer::new().format(integer).as_bytes())
}

/// The first and the last byte of what goes from one index up to another.
pub fn push_range(text: &mut Vec<u8>, start: usize, end: usize) -> Result<(), AllocError>
    ensures { OnOk result (text.new.items ≡ text.old.items ++ bytes_text start end) }
{
    push_bytes(text, b" bytes ")?;
    push_bytes(text, Buffer::new().format(start as u128 + 1).as_bytes())?;
    push_bytes(text, b"..")?;
    push_number(text, end)
}

/// The first and the last byte of the item.
pub fn push_place(text: &mut Vec<u8>, item: Span) -> Result<(), AllocError>
    ensures { OnOk result (text.new.items ≡ text.old.items ++ span_text item) }
{
    push_range(text, item.start, item.end)
}

/// The line and the column.
pub fn push_position(text: &mut Vec<u8>, position: Position) -> Result<(), AllocError>
    ensures { OnOk result (text.new.items ≡ text.old.items ++ position_text position) }
{
    push_bytes(text, b" line ")?;
    push_number(text, position.line as usize)?;
    push_bytes(text, b" column ")?;
    push_number(text, position.column as usize)
}

/// The word, where the mark stands.
pub fn push_mark(text: &mut Vec<u8>, word: &[u8], stands: bool) -> Result<(), AllocError>
    ensures { OnOk result (text.new.items ≡ text.old.items ++ mark_text word.now stands) }
{
    if stands {
        push_bytes(text, word)?;
    }
    Ok(())
}

/// A space, and the number of the variable.
pub fn push_variable(text: &mut Vec<u8>, var: VarId) -> Result<(), AllocError>
    ensures { OnOk result (text.new.items ≡ text.old.items ++ variable_text var) }
{
    push_bytes(text, b" ")?;
    push_number(text, var.0)
}

/// The number of a variable, and nothing for a constant.
pub fn push_number_of(text: &mut Vec<u8>, term: Term) -> Result<(), AllocError>
    ensures { OnOk result (text.new.items ≡ text.old.items ++ number_text term) }
{
    match term {
        Term::Constant(_) => Ok(()),
        Term::Variable(var) => push_variable(text, var),
    }
}

/// The number of a variable, or a constant.
pub fn push_entry(text: &mut Vec<u8>, term: Term) -> Result<(), AllocError>
    ensures { OnOk result (text.new.items ≡ text.old.items ++ term_text term) }
{
    match term {
        Term::Constant(value) => {
            push_bytes(text, b" =")?;
            push_integer(text, value)
        }
        Term::Variable(var) => push_variable(text, var),
    }
}
