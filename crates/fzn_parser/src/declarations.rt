//! Parameters and variables.

ghost use Rattle.std.specs.Prelude.{◌≡◌, ◌<◌, ◌≤◌, Err, length, OnOk, IfOk};
ghost use Rattle.fzn_lexer.specs.declared.halt.Halt.TheVariants.{Fault};
ghost use Rattle.fzn_tree.specs.Grammar as grammar;
ghost use Rattle.fzn_parser.specs.Declarations as spec;
ghost use Rattle.fzn_parser.specs.GoesOn.{never, goes_further, declares};
ghost use Rattle.fzn_parser.specs.Reads.{ReadsValue, IsRefused};

use crate::annotations::anns;
use crate::cursor::Start::Sign;
use crate::cursor::{Refusal, Start, Stop, Tokens};
use crate::lists::listed;
use crate::types::{array_of, base};
use crate::values::{array, basic, literal};
use fzn_lexer::Symbol;
use fzn_list::{Items, LONGEST};
use fzn_tree::{
    Ann, Array, ArrayVar, Base, Basic, Literal, Name, Param, ParamBase, ParamValue, SingleVar,
    Size, Var,
};
use std::alloc::Global;

fn param_base(tokens: &mut Tokens<'_>) -> Result<ParamBase, Stop>
    ensures reads { ReadsValue grammar.param_base never tokens.old result tokens.new }
    ensures shorter { OnOk result (length tokens.new < length tokens.old) }
{
    if tokens.sees(Sign(Symbol::Bool)) {
        return Ok(ParamBase::Bool(tokens.symbol_position(Symbol::Bool)?));
    }
    if tokens.sees(Sign(Symbol::Int)) {
        return Ok(ParamBase::Int(tokens.symbol_position(Symbol::Int)?));
    }
    let position = tokens.symbol_position(Symbol::Set)?;
    tokens.symbol(Symbol::Of)?;
    tokens.symbol(Symbol::Int)?;
    Ok(ParamBase::Set(position))
}

fn param_value(alloc: Global, tokens: &mut Tokens<'_>) -> Result<ParamValue, Stop>
    ensures reads { ReadsValue grammar.param_value goes_further tokens.old result tokens.new }
    ensures never_longer { OnOk result (length tokens.new ≤ length tokens.old) }
{
    if !tokens.sees(Sign(Symbol::OpenBracket)) {
        return Ok(ParamValue::Literal(literal(alloc, tokens)?));
    }
    let position = tokens.symbol_position(Symbol::OpenBracket)?;
    let entries: Items<Literal> = listed(alloc, tokens, Symbol::CloseBracket)?;
    Ok(ParamValue::Array(position, entries))
}

/// A parameter from its type on.
#[derive(Drop)]
pub struct ParamRest {
    /// The type of its value, or of each entry where it is an array.
    pub base: ParamBase,
    /// The name that is declared, with its position.
    pub name: Name,
    /// What the name stands for.
    pub value: ParamValue,
}

impl ParamRest {
    /// The parameter of this size.
    fn of_size(self, size: Option<Size>) -> Param
        ensures { result ≡ record { size = size; base = self.base; name = self.name; value = self.value } }
    {
        Param {
            size,
            base: self.base,
            name: self.name,
            value: self.value,
        }
    }
}

fn param_rest(alloc: Global, tokens: &mut Tokens<'_>) -> Result<ParamRest, Stop>
    ensures reads { ReadsValue spec.param_rest never tokens.old result tokens.new }
    ensures shorter { OnOk result (length tokens.new < length tokens.old) }
{
    let base = param_base(tokens)?;
    tokens.symbol(Symbol::Colon)?;
    let name = tokens.name(alloc)?;
    tokens.symbol(Symbol::Equals)?;
    let value = param_value(alloc, tokens)?;
    tokens.symbol(Symbol::Semicolon)?;
    Ok(ParamRest { base, name, value })
}

/// The value that a variable is declared with, up to the semicolon.
fn given(alloc: Global, tokens: &mut Tokens<'_>) -> Result<Option<Basic>, Stop>
    ensures reads { ReadsValue spec.given_pieces never tokens.old result tokens.new }
    ensures never_longer { OnOk result (length tokens.new ≤ length tokens.old) }
{
    if !tokens.sees(Sign(Symbol::Equals)) {
        tokens.symbol(Symbol::Semicolon)?;
        return Ok(None);
    }
    tokens.symbol(Symbol::Equals)?;
    let value = basic(alloc, tokens)?;
    tokens.symbol(Symbol::Semicolon)?;
    Ok(Some(value))
}

fn single_var(alloc: Global, tokens: &mut Tokens<'_>) -> Result<SingleVar, Stop>
    ensures reads { ReadsValue grammar.single_var never tokens.old result tokens.new }
    ensures shorter { OnOk result (length tokens.new < length tokens.old) }
{
    let position = tokens.symbol_position(Symbol::Var)?;
    let base = base(alloc, tokens)?;
    tokens.symbol(Symbol::Colon)?;
    let name = tokens.name(alloc)?;
    let anns = anns(alloc, tokens)?;
    let value = given(alloc, tokens)?;
    Ok(SingleVar {
        position,
        base,
        name,
        anns,
        value,
    })
}

/// An array of variables from `var` on.
#[derive(Drop)]
pub struct ArrayRest {
    /// The type of each entry.
    pub base: Base,
    /// The name that is declared, with its position.
    pub name: Name,
    /// The annotations, in order.
    pub anns: Items<Ann>,
    /// The entries.
    pub array: Array,
}

impl ArrayRest {
    /// The array of variables of this size.
    fn of_size(self, size: Size) -> ArrayVar
        ensures { result ≡ record { size = size; base = self.base; name = self.name; anns = self.anns; array = self.array } }
    {
        ArrayVar {
            size,
            base: self.base,
            name: self.name,
            anns: self.anns,
            array: self.array,
        }
    }
}

fn array_rest(alloc: Global, tokens: &mut Tokens<'_>) -> Result<ArrayRest, Stop>
    ensures reads { ReadsValue spec.array_rest never tokens.old result tokens.new }
    ensures shorter { OnOk result (length tokens.new < length tokens.old) }
{
    tokens.symbol(Symbol::Var)?;
    let base = base(alloc, tokens)?;
    tokens.symbol(Symbol::Colon)?;
    let name = tokens.name(alloc)?;
    let anns = anns(alloc, tokens)?;
    tokens.symbol(Symbol::Equals)?;
    let array = array(alloc, tokens)?;
    tokens.symbol(Symbol::Semicolon)?;
    Ok(ArrayRest {
        base,
        name,
        anns,
        array,
    })
}

/// A variable or an array of them, behind so many single variables.
fn var(alloc: Global, tokens: &mut Tokens<'_>, singles: usize) -> Result<Var, Stop>
    requires { singles ≤ LONGEST }
    ensures reads { ReadsValue (grammar.var singles) never tokens.old result tokens.new }
    ensures few { IfOk result (λ found. grammar.singles_with singles found ≤ LONGEST) }
    ensures shorter { OnOk result (length tokens.new < length tokens.old) }
{
    if tokens.sees(Sign(Symbol::Array)) {
        let size = array_of(tokens)?;
        let rest = array_rest(alloc, tokens)?;
        return Ok(Var::Array(rest.of_size(size)));
    }
    if singles >= LONGEST {
        return Err(tokens.refuse_more(Sign(Symbol::Var)));
    }
    Ok(Var::Single(single_var(alloc, tokens)?))
}

/// How many single variables there are with this one.
fn count_single(singles: usize, var: &Var) -> usize
    requires { singles ≤ LONGEST }
    ensures { result ≡ grammar.singles_with singles var.now }
{
    match var {
        Var::Single(_) => singles + 1,
        Var::Array(_) => singles,
    }
}

/// The variables from here on, at the end of `vars`, which are arrays.
fn more_vars(
    alloc: Global,
    tokens: &mut Tokens<'_>,
    mut vars: Items<Var>,
) -> Result<Items<Var>, Stop>
    ensures ok { IfOk result (λ all. spec.AreReadBehind vars tokens.old all tokens.new) }
    ensures err { (found : Refusal) → result ≡ Err (Fault found) → IsRefused (spec.vars 0) declares tokens.old found }
{
    let mut singles: usize = 0;
    'vars: while tokens.sees(Start::Var) {
        let var = var(alloc, tokens, singles)?;
        singles = count_single(singles, &var);
        vars.push(var)?;
    }
    Ok(vars)
}

/// What may stand before the first single variable.
#[derive(Drop)]
pub enum Declared {
    Param(Param),
    Array(ArrayVar),
}

fn declaration(alloc: Global, tokens: &mut Tokens<'_>) -> Result<Declared, Stop>
    ensures reads { ReadsValue spec.declared never tokens.old result tokens.new }
    ensures shorter { OnOk result (length tokens.new < length tokens.old) }
{
    if !tokens.sees(Sign(Symbol::Array)) {
        let rest = param_rest(alloc, tokens)?;
        return Ok(Declared::Param(rest.of_size(None)));
    }
    let size = array_of(tokens)?;
    if tokens.sees(Sign(Symbol::Var)) {
        let rest = array_rest(alloc, tokens)?;
        return Ok(Declared::Array(rest.of_size(size)));
    }
    let rest = param_rest(alloc, tokens)?;
    Ok(Declared::Param(rest.of_size(Some(size))))
}

/// The parameters, and then the variables.
pub fn declarations(
    alloc: Global,
    tokens: &mut Tokens<'_>,
) -> Result<(Items<Param>, Items<Var>), Stop>
    ensures reads { ReadsValue grammar.declarations declares tokens.old result tokens.new }
{
    let mut params = Items::new(alloc);
    let mut vars = Items::new(alloc);
    'params: while tokens.sees(Start::Declaration) {
        match declaration(alloc, tokens)? {
            Declared::Param(param) => params.push(param)?,
            Declared::Array(array) => {
                vars.push(Var::Array(array))?;
                break 'params;
            }
        }
    }
    let vars = more_vars(alloc, tokens, vars)?;
    Ok((params, vars))
}
