//! The tokens that are left, and why the next one is refused.

ghost use Rattle.std.specs.Prelude.{◌≡◌, ◌≢◌, ◌<◌, ℕ, Bool, true, false, List, Err, length, OnOk};
ghost use Rattle.fzn_lexer.specs.Kept.{kind_in};
ghost use Rattle.fzn_parser.specs.Begins.{literal_signs, may_start};
ghost use Rattle.fzn_parser.specs.Taken.{int_in, text_in};

use fzn_lexer::{FaultKind, Halt, Kept, Position, Positions, Symbol, TokenForm, TokenList, inside};
use fzn_list::{LONGEST, Text};
use fzn_tree::{Int, Name};
use std::alloc::Global;
use std::marker::Model;

/// A fault of this kind at the token with which this many are left, that token among them.
#[derive(Clone, Copy)]
pub struct Refusal {
    /// What is wrong.
    pub kind: FaultKind,
    /// How many tokens of the file have not been taken, the refused one among them.
    pub left: usize,
}

/// Why reading stopped.
pub type Stop = Halt<Refusal>;

/// What the first token of a phrase may be.
#[derive(Clone, Copy)]
pub enum Start {
    Sign(Symbol),
    Name,
    Int,
    Text,
    /// Of `true`, `false`, a number or a set of numbers.
    Literal,
    /// Of a literal, or a name.
    Basic,
    /// Of a term of an annotation.
    Term,
    /// Of a parameter or an array of variables.
    Declaration,
    /// Of a declaration of variables.
    Var,
}

/// Whether a literal may begin with this symbol.
fn begins_literal(symbol: Symbol) -> bool
    ensures { result ≡ literal_signs symbol }
{
    matches!(symbol, Symbol::True | Symbol::False | Symbol::OpenBrace)
}

impl Start {
    /// Whether a token of this form is one of these.
    fn fits(self, form: TokenForm) -> bool
        ensures { (text : List ℕ) → result ≡ may_start self (kind_in form text) }
    {
        match self {
            Start::Sign(symbol) => form.is(symbol),
            Start::Name => matches!(form, TokenForm::Name),
            Start::Int => matches!(form, TokenForm::Int(_)),
            Start::Text => matches!(form, TokenForm::Text),
            Start::Literal => match form {
                TokenForm::Symbol(symbol) => begins_literal(symbol),
                TokenForm::Int(_) => true,
                TokenForm::Name | TokenForm::Text => false,
            },
            Start::Basic => match form {
                TokenForm::Symbol(symbol) => begins_literal(symbol),
                TokenForm::Name | TokenForm::Int(_) => true,
                TokenForm::Text => false,
            },
            Start::Term => match form {
                TokenForm::Symbol(symbol) => begins_literal(symbol),
                TokenForm::Name | TokenForm::Int(_) | TokenForm::Text => true,
            },
            Start::Declaration => {
                form.is(Symbol::Array)
                    || form.is(Symbol::Bool)
                    || form.is(Symbol::Int)
                    || form.is(Symbol::Set)
            }
            Start::Var => form.is(Symbol::Var) || form.is(Symbol::Array),
        }
    }
}

/// A token that was read, with its bytes and its position.
#[derive(Drop)]
struct Taken<'a> {
    form: TokenForm,
    bytes: &'a [u8],
    position: Position,
}

impl<'a> Model for Taken<'a> {
    ghost use Rattle.fzn_lexer.specs.declared.token.Kind.{Kind};
    ghost use Rattle.fzn_lexer.specs.declared.token.Position.{Position};
    ghost use Rattle.fzn_lexer.specs.Kept.{kind_in};

    ghost Value = { Kind × Position };

    ghost view = { λ t. (kind_in t.form t.bytes.now, t.position) };
}

impl<'a> Taken<'a> {
    /// Its number, 0 where it is none.
    fn value(&self) -> i64
        ensures { result ≡ int_in self.now.0 }
    {
        match self.form {
            TokenForm::Int(value) => i64::from(value),
            TokenForm::Symbol(_) | TokenForm::Name | TokenForm::Text => 0,
        }
    }

    /// The text of a name, or what stands between the quotes.
    fn text(&self) -> &'a [u8]
        ensures { result.now ≡ text_in self.now.0 }
    {
        match self.form {
            TokenForm::Name => self.bytes,
            TokenForm::Text => inside(self.bytes),
            TokenForm::Symbol(_) | TokenForm::Int(_) => &self.bytes[..0],
        }
    }
}

/// The tokens that are left.
#[derive(Drop)]
pub struct Tokens<'a> {
    file: Positions<'a>,
    rest: &'a [Kept],
}

impl<'a> Model for Tokens<'a> {
    ghost use Rattle.std.specs.Prelude.{List};
    ghost use Rattle.fzn_lexer.specs.declared.token.Token.{Token};
    ghost use Rattle.fzn_lexer.specs.Kept.{tokens_of};

    ghost Value = { List Token };

    ghost view = { λ t. tokens_of t.file t.rest.now };
}

impl<'a> Tokens<'a> {
    ghost use Rattle.fzn_lexer.specs.declared.fault.FaultKind.TheVariants.{Syntax};
    ghost use Rattle.fzn_lexer.specs.declared.halt.Halt.TheVariants.{Fault};
    ghost use Rattle.fzn_lexer.specs.declared.token.Symbol.TheVariants.{End};
    ghost use Rattle.fzn_lexer.specs.declared.token.Kind.TheVariants as kinds;
    ghost use Rattle.fzn_tree.specs.Piece.{sign, placed};
    ghost use Rattle.fzn_tree.specs.Grammar as grammar;
    ghost use Rattle.fzn_parser.specs.Begins.{begins};
    ghost use Rattle.fzn_parser.specs.GoesOn.{never};
    ghost use Rattle.fzn_parser.specs.Reads.{ReadsValue, next_is};
    ghost use Rattle.fzn_parser.specs.Taken.{Takes, is, refusal, over, one, text};

    /// All of these tokens.
    pub fn new(tokens: &'a TokenList<'_>) -> Tokens<'a>
        ensures { result ≡ tokens.now }
    {
        let parts = tokens.parts();
        Tokens {
            file: parts.file,
            rest: parts.kept,
        }
    }

    /// A fault of this kind at the next token.
    pub fn refuse(&self, kind: FaultKind) -> Stop
        ensures { result ≡ Fault (refusal kind self.now) }
    {
        Halt::Fault(Refusal {
            kind,
            left: self.rest.len(),
        })
    }

    /// Whether the next token is one of these.
    pub fn sees(&self, wanted: Start) -> bool
        ensures { result ≡ next_is (begins wanted) self.now }
    {
        match self.rest {
            [] => false,
            [token, ..] => wanted.fits(token.form),
        }
    }

    /// Why one more, which begins with one of these, is refused where there are as many as there may be.
    pub fn refuse_more(&self, wanted: Start) -> Stop
        ensures { result ≡ Fault (over (next_is (begins wanted) self.now) self.now) }
    {
        if self.sees(wanted) {
            self.refuse(FaultKind::TooMany)
        } else {
            self.refuse(FaultKind::Syntax)
        }
    }

    /// Past the next token, if it is one of these. A syntax fault where it is another, or none is left.
    fn take_if(&mut self, wanted: Start) -> Result<Taken<'a>, Stop>
        ensures takes { Takes wanted self.old result self.new }
        ensures shorter { OnOk result (length self.new < length self.old) }
    {
        let [token, rest @ ..] = self.rest else {
            return Err(self.refuse(FaultKind::Syntax));
        };
        if !wanted.fits(token.form) {
            return Err(self.refuse(FaultKind::Syntax));
        }
        let bytes = token.text(self.file.bytes());
        let position = self.file.of(token.start as usize);
        self.rest = rest;
        Ok(Taken {
            form: token.form,
            bytes,
            position,
        })
    }

    /// Past this symbol. A syntax fault where the next token is another.
    pub fn symbol(&mut self, symbol: Symbol) -> Result<(), Stop>
        requires not_end { symbol ≢ End }
        ensures reads { ReadsValue (λ u. sign symbol) never self.old result self.new }
        ensures shorter { OnOk result (length self.new < length self.old) }
    {
        self.take_if(Start::Sign(symbol))?;
        Ok(())
    }

    /// Past the end. A syntax fault where the next token is another.
    pub fn end(&mut self) -> Result<(), Stop>
        ensures ok { OnOk result (next_is (is End) self.old ≡ true) }
        ensures err { (found : Refusal) → result ≡ Err (Fault found) → (found ≡ refusal Syntax self.old) × (next_is (is End) self.old ≡ false) }
    {
        self.take_if(Start::Sign(Symbol::End))?;
        Ok(())
    }

    /// Past this symbol, with its position. A syntax fault where the next token is another.
    pub fn symbol_position(&mut self, symbol: Symbol) -> Result<Position, Stop>
        requires not_end { symbol ≢ End }
        ensures reads { ReadsValue (λ at. placed (kinds.Symbol symbol) at) never self.old result self.new }
        ensures shorter { OnOk result (length self.new < length self.old) }
    {
        let token = self.take_if(Start::Sign(symbol))?;
        Ok(token.position)
    }

    /// The name that is next, with its position. A syntax fault where the next token is none.
    pub fn name(&mut self, alloc: Global) -> Result<Name, Stop>
        ensures reads { ReadsValue grammar.name never self.old result self.new }
        ensures shorter { OnOk result (length self.new < length self.old) }
    {
        let token = self.take_if(Start::Name)?;
        Ok(Name {
            text: Text::from_slice(alloc, token.text())?,
            position: token.position,
        })
    }

    /// The text that is next, without its quotes, and its position. A syntax fault where the next token is none.
    pub fn text(&mut self, alloc: Global) -> Result<(Text, Position), Stop>
        ensures reads { ReadsValue text never self.old result self.new }
        ensures shorter { OnOk result (length self.new < length self.old) }
    {
        let token = self.take_if(Start::Text)?;
        let text = Text::from_slice(alloc, token.text())?;
        Ok((text, token.position))
    }

    /// The number that is next, with its position. A syntax fault where the next token is none.
    pub fn int(&mut self) -> Result<Int, Stop>
        ensures reads { ReadsValue grammar.int never self.old result self.new }
        ensures shorter { OnOk result (length self.new < length self.old) }
    {
        let token = self.take_if(Start::Int)?;
        Ok(Int {
            value: token.value(),
            position: token.position,
        })
    }

    /// A number, where its position is not wanted. A syntax fault where the next token is none.
    pub fn number(&mut self) -> Result<i64, Stop>
        ensures reads { ReadsValue grammar.number never self.old result self.new }
        ensures shorter { OnOk result (length self.new < length self.old) }
    {
        let token = self.take_if(Start::Int)?;
        Ok(token.value())
    }

    /// The number 1. A syntax fault where the next token is another.
    pub fn one(&mut self) -> Result<(), Stop>
        ensures reads { ReadsValue one never self.old result self.new }
        ensures shorter { OnOk result (length self.new < length self.old) }
    {
        let refused = self.refuse(FaultKind::Syntax);
        let token = self.take_if(Start::Int)?;
        if token.value() != 1 {
            return Err(refused);
        }
        Ok(())
    }

    /// The number of an array's entries. A syntax fault where the next token is no number or is below 0, too many above `LONGEST`.
    pub fn size(&mut self) -> Result<usize, Stop>
        ensures reads { ReadsValue grammar.array_length never self.old result self.new }
        ensures shorter { OnOk result (length self.new < length self.old) }
    {
        let refused = self.refuse(FaultKind::Syntax);
        let too_many = self.refuse(FaultKind::TooMany);
        let token = self.take_if(Start::Int)?;
        let value = token.value();
        if value < 0 {
            return Err(refused);
        }
        let size = value as usize;
        if size > LONGEST {
            return Err(too_many);
        }
        Ok(size)
    }
}
