//! A file has one reading.

ghost use Rattle.std.specs.Prelude.{◌≡◌, ◌⊎◌, ℕ, List};
ghost use Rattle.fzn_lexer.specs.declared.fault.Fault.{Fault};
ghost use Rattle.fzn_lexer.specs.declared.token.Token.{Token};
ghost use Rattle.fzn_lexer.specs.Tokens.{IsReading};

/// Bytes have one list of tokens, or one first fault.
pub fn one_reading()
    ensures { (bytes : List ℕ) (x y : List Token ⊎ Fault) → IsReading bytes x → IsReading bytes y → x ≡ y }
{}
