//! Strings.

ghost use Rattle.std.specs.Prelude.{◌≡◌, ◌<◌, length, slice_index};
ghost use Rattle.fzn_lexer.specs.Steps.{ReadsToken};

use crate::bytes::inside_len;
use crate::fault::FaultKind;
use crate::kept::TokenForm;
use crate::lexeme::Lexeme;

/// The string at the front of the bytes that are left, where a quote stands.
pub fn string(rest: &[u8]) -> Result<Lexeme, FaultKind>
    requires some { 0 < length rest.now }
    requires head { slice_index rest.now 0 ≡ 34 }
    ensures { ReadsToken rest.now result }
{
    let behind = &rest[1..];
    let Some(len) = inside_len(behind) else {
        return Err(FaultKind::BadToken);
    };
    Ok(Lexeme {
        form: TokenForm::Text,
        len: len + 2,
    })
}
