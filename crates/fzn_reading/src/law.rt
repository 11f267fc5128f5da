// A file has one model or one fault, and its tree keeps the limits.
ghost use Rattle.std.specs.Prelude.{◌≡◌, ◌≢◌, ℕ, List, Result, Ok, Err};
ghost use Rattle.std.specs.List.{All};
ghost use Rattle.fzn_lexer.specs.declared.fault.Fault.{Fault};
ghost use Rattle.fzn_lexer.specs.declared.halt.Halt.{Halt};
ghost use Rattle.fzn_lexer.specs.declared.halt.Halt.TheVariants.{Memory};
ghost use Rattle.fzn_lexer.specs.declared.token.Token.{Token};
ghost use Rattle.fzn_lexer.specs.Lexemes.{HasSmallNumber};
ghost use Rattle.fzn_lexer.specs.Tokens.{Lexes};
ghost use Rattle.fzn_meaning.specs.declared.model.Model.{Model};
ghost use Rattle.fzn_tree.specs.declared.tree.Tree.{Tree};
ghost use Rattle.fzn_parser.specs.Parse.{IsTree};
ghost use Rattle.fzn_typing.specs.Limits.{IsTreeWithin};
ghost use Rattle.fzn_reading.specs.Reads.{Reads};

/// The bytes of a file have one model or one fault: two answers for them are the same, unless memory ran out.
pub fn one_model()
    ensures { (bytes : List ℕ) (x y : Result Model (Halt Fault)) → Reads bytes x → Reads bytes y
        → x ≢ Err Memory → y ≢ Err Memory → x ≡ y }
{}

/// What the tokens of a file spell keeps the limits that looking at types requires.
pub fn within_limits()
    ensures { (bytes : List ℕ) (tokens : List Token) (tree : Tree) → Lexes bytes (Ok tokens) → IsTree tokens tree
        → IsTreeWithin tree }
{}

/// Each number among the tokens of a file is small.
pub fn small_tokens()
    ensures { (bytes : List ℕ) (tokens : List Token) → Lexes bytes (Ok tokens) → All (λ (token : Token). HasSmallNumber token.kind) tokens }
{}

/// What tokens spell whose numbers are small keeps the limits that looking at types requires.
pub fn small_within_limits()
    ensures { (tokens : List Token) (tree : Tree) → All (λ (token : Token). HasSmallNumber token.kind) tokens → IsTree tokens tree → IsTreeWithin tree }
{}
