//! A list of tokens has one reading.

ghost use Rattle.std.specs.Prelude.{◌≡◌, ◌⊎◌, List};
ghost use Rattle.fzn_lexer.specs.declared.fault.Fault.{Fault};
ghost use Rattle.fzn_lexer.specs.declared.token.Token.{Token};
ghost use Rattle.fzn_tree.specs.declared.tree.Tree.{Tree};
ghost use Rattle.fzn_parser.specs.Parse.{IsParsing};

/// Tokens have one tree, or one first fault.
pub fn one_reading()
    ensures { (tokens : List Token) (x y : Tree ⊎ Fault) → IsParsing tokens x → IsParsing tokens y → x ≡ y }
{}
