//! What a file says, by the cases of the grammar. A part has the position of its first token where a fault may stand there.

use crate::listed::Listed;
use fzn_lexer::Position;
use fzn_list::{Items, Text};

/// A name as it is written, from this position.
#[derive(Debug, Drop)]
pub struct Name {
    /// The bytes of the name.
    pub text: Text,
    /// The position of its first byte.
    pub position: Position,
}

/// A number from -10^9 to 10^9, from this position.
#[derive(Clone, Copy, Debug)]
pub struct Int {
    /// The number.
    pub value: i64,
    /// The position of its first byte.
    pub position: Position,
}

/// All numbers from the first to the second, none if the second is below the first. Both lie from -10^9 to 10^9.
#[derive(Clone, Copy, Debug)]
pub struct Range {
    /// The first, with its position.
    pub low: Int,
    /// The second.
    pub high: i64,
}

/// `true`, `false`, a number or a set of numbers. The lexer and the parser keep each number from -10^9 to 10^9, and a list to 65,536
/// values.
#[derive(Debug, Drop)]
pub enum Literal {
    /// `true` or `false`, from this position.
    Bool(bool, Position),
    /// A number.
    Int(Int),
    /// The set of all numbers of a range.
    Range(Range),
    /// A set of listed values, from the position of its brace.
    Set(Position, Listed),
}

/// A literal or a name, which stands for a parameter or a variable.
#[derive(Debug, Drop)]
pub enum Basic {
    /// A value that is written out.
    Literal(Literal),
    /// A name that a declaration has to give a meaning.
    Name(Name),
}

/// At most 100,000 entries in brackets, from the position of the first bracket.
#[derive(Debug, Drop)]
pub struct Array {
    /// The position of the first bracket.
    pub position: Position,
    /// The entries in order.
    pub entries: Items<Basic>,
}

/// An argument of a constraint.
#[derive(Debug, Drop)]
pub enum Arg {
    /// A single value.
    Basic(Basic),
    /// A list of values.
    Array(Array),
}

/// A name, and what stands in parentheses where they are written.
#[derive(Drop)]
pub struct Ann {
    /// The name.
    pub name: Name,
    /// `None` where no parentheses are written.
    pub args: Option<Items<AnnArg<Ann>>>,
}

/// An argument of an annotation: a term, or the terms in brackets in order.
#[derive(Drop)]
pub enum AnnArg<A> {
    /// A term.
    One(AnnTerm<A>),
    /// The terms between brackets.
    List(Items<AnnTerm<A>>),
}

/// A term of an annotation: a literal, a text without its quotes from this position, or an annotation.
#[derive(Drop)]
pub enum AnnTerm<A> {
    /// A literal.
    Literal(Literal),
    /// The bytes between the quotes.
    Text(Text, Position),
    /// An annotation, or a name alone.
    Ann(A),
}

/// The values of a type, as a range or one by one.
#[derive(Debug, Drop)]
pub enum Values {
    /// All numbers of a range.
    Range(Range),
    /// At most 65,536 values, in the order of the file.
    Listed(Items<i64>),
}

/// A type as it is written.
#[derive(Debug, Drop)]
pub enum Base {
    /// `bool`
    Bool,
    /// `int`, from this position.
    Int(Position),
    /// Numbers among these values.
    Values(Values),
    /// Sets, from the position of `set`, of these values or of any number.
    Set(Position, Option<Values>),
}

/// The index set of an array in a predicate: any, or from 1 to this number.
#[derive(Clone, Copy, Debug)]
pub enum Indices {
    /// `int`
    Any,
    /// From 1 to this number, at most 100,000.
    Size(usize),
}

/// A parameter of a predicate: an array of any size or of this one where an index set is written, of variables where `var` is.
#[derive(Debug, Drop)]
pub struct PredicateParam {
    /// Its index set, for an array.
    pub array: Option<Indices>,
    /// Whether `var` is written.
    pub is_var: bool,
    /// The type of its value or its entries.
    pub base: Base,
    /// Its name.
    pub name: Name,
}

/// A predicate item, with its parameters in order.
#[derive(Debug, Drop)]
pub struct Predicate {
    /// The position of `predicate`.
    pub position: Position,
    /// The name that it declares.
    pub name: Name,
    /// The parameters in order.
    pub params: Items<PredicateParam>,
}

/// The size of an array whose indices begin at 1, from the position of `array`.
#[derive(Clone, Copy, Debug)]
pub struct Size {
    /// The position of `array`.
    pub position: Position,
    /// The upper end of its index set, 0 to 100,000.
    pub count: usize,
}

/// The type of a parameter's values, from the position of its first word.
#[derive(Clone, Copy, Debug)]
pub enum ParamBase {
    /// `bool`
    Bool(Position),
    /// `int`
    Int(Position),
    /// `set of int`
    Set(Position),
}

/// What a parameter is given: a literal, or the entries of an array in order.
#[derive(Debug, Drop)]
pub enum ParamValue {
    /// One value.
    Literal(Literal),
    /// The entries of an array, from the position of its bracket.
    Array(Position, Items<Literal>),
}

/// A parameter, an array of entries from 1 where a size is given.
#[derive(Debug, Drop)]
pub struct Param {
    /// The size of an array, `None` for a single value.
    pub size: Option<Size>,
    /// The type of its value or its entries.
    pub base: ParamBase,
    /// Its name.
    pub name: Name,
    /// What it is given.
    pub value: ParamValue,
}

/// A variable of this type, with its annotations in order, and the value that it is declared with if there is one.
#[derive(Drop)]
pub struct SingleVar {
    /// The position of `var`.
    pub position: Position,
    /// The type.
    pub base: Base,
    /// The name.
    pub name: Name,
    /// The annotations in order.
    pub anns: Items<Ann>,
    /// What stands behind `=`.
    pub value: Option<Basic>,
}

/// An array of variables of this type, with its annotations in order, and its entries.
#[derive(Drop)]
pub struct ArrayVar {
    /// How many entries its type asks for.
    pub size: Size,
    /// The type of its entries.
    pub base: Base,
    /// The name.
    pub name: Name,
    /// The annotations in order.
    pub anns: Items<Ann>,
    /// The entries.
    pub array: Array,
}

/// A declaration of variables.
#[derive(Drop)]
pub enum Var {
    /// A single variable.
    Single(SingleVar),
    /// An array.
    Array(ArrayVar),
}

/// A constraint: its name, and its arguments and annotations in order.
#[derive(Drop)]
pub struct Con {
    /// The name of the constraint.
    pub name: Name,
    /// The arguments in order.
    pub args: Items<Arg>,
    /// The annotations in order.
    pub anns: Items<Ann>,
}

/// What is wanted: any solution, or one where this value is least or greatest.
#[derive(Debug, Drop)]
pub enum Goal {
    /// Any solution.
    Satisfy,
    /// One where this value is least.
    Minimize(Basic),
    /// One where this value is greatest.
    Maximize(Basic),
}

/// The solve item: its annotations in order, and the goal.
#[derive(Drop)]
pub struct Solve {
    /// The annotations in order.
    pub anns: Items<Ann>,
    /// What is wanted.
    pub goal: Goal,
}

/// A whole file, its items of each kind in order (MiniZinc Handbook, FlatZinc grammar). There are at most 100,000 single variables and at
/// most as many constraint items.
#[derive(Drop)]
pub struct Tree {
    /// The predicates that it declares, which have no further effect.
    pub predicates: Items<Predicate>,
    /// The parameters.
    pub params: Items<Param>,
    /// The variables and arrays of variables.
    pub vars: Items<Var>,
    /// The constraint items.
    pub cons: Items<Con>,
    /// The solve item.
    pub solve: Solve,
}
