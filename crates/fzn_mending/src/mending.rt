// A file mended: its tokens, where some are put in the place of others.
ghost use Rattle.std.specs.Prelude.{◌≡◌, ◌++◌, List, ℕ, OnOk, IfOk};
ghost use Rattle.fzn_lexer.specs.Kept.{kind_in, token_of, tokens_of};
ghost use Rattle.fzn_mending.specs.Mending.{is_sign, is_zero, kept_part, put_at, literal_number, number_named, number_meant, first_number, begun, after_var, after_index, after_of, after_set, after_type, after_goal, after_solve, seen_after, next, bounds_at, instead_after_var, instead_after_of, end_alone, instead_after_set, satisfied_at, instead_after_solve, instead, mended, named_at, mended_at, mended_places, constant_at, constant};

use crate::places::{Change, ConstantGoal, Part, Place};
use fzn_lexer::{Kept, MAX_FILE, Parts, Symbol, TokenForm, TokenList};
use fzn_list::Items;
use fzn_tree::{Literal, Param, ParamValue};
use std::alloc::{AllocError, Global};

/// What was seen of the item that has begun.
#[derive(Clone, Copy)]
pub enum Seen {
    /// An item begins.
    Nothing,
    /// `var`, its first token.
    Var,
    /// `array`, its first token, and a part of the index set: whether the last number is 0.
    Index(bool),
    /// `array [1..0] of`, and perhaps `var`.
    Element,
    /// A part of the type of a set, which stands here so far.
    Sets(Part),
    /// A type that is mended, which stands here, and perhaps its colon.
    Mended(Change, Part),
    /// `solve`, its first token, and annotations.
    Solve,
    /// `minimize`, or else `maximize`, with the number that stands behind it.
    Goal(bool, i64),
    /// What is not mended.
    Other,
}

// ---- tokens

fn is_sign(sign: Symbol, token: &Kept) -> bool
    ensures { (bytes : List ℕ) → result ≡ is_sign sign (token_of bytes token.now) }
{
    token.form.is(sign)
}

fn is_zero(form: TokenForm) -> bool
    ensures { (text : List ℕ) → result ≡ is_zero (kind_in form text) }
{
    match form {
        TokenForm::Int(number) => number == 0,
        _ => false,
    }
}

fn part_of(token: &Kept) -> Part
    ensures { result ≡ kept_part token.now }
{
    Part {
        start: token.start as usize,
        end: token.end as usize,
    }
}

/// A token of this form where the other stands.
fn put_at(token: &Kept, form: TokenForm) -> Kept
    ensures form { result.form ≡ form }
    ensures start { result.start ≡ token.now.start }
    ensures end { result.end ≡ token.now.end }
{
    Kept {
        form,
        start: token.start,
        end: token.end,
    }
}

// ---- the constants of goals

fn number_in(value: &ParamValue) -> Option<i64>
    ensures { result ≡ literal_number value.now }
{
    match value {
        ParamValue::Literal(Literal::Int(number)) => Some(number.value),
        _ => None,
    }
}

fn number_named(mut params: &[Param], text: &[u8]) -> Option<i64>
    ensures { result ≡ number_named params.now text.now }
{
    while let [param, rest @ ..] = params {
        if text == param.name.text.as_slice() {
            return number_in(&param.value);
        }
        params = rest;
    }
    None
}

fn number_of(params: &[Param], form: TokenForm, text: &[u8]) -> Option<i64>
    ensures { result ≡ number_meant params.now (kind_in form text.now) }
{
    match form {
        TokenForm::Int(number) => Some(i64::from(number)),
        TokenForm::Name => number_named(params, text),
        TokenForm::Symbol(_) => None,
        TokenForm::Text => None,
    }
}

/// The number that stands first among the tokens of a file with these bytes and parameters, or the parameter of its name is given.
fn first_number(bytes: &[u8], params: &[Param], tokens: &[Kept]) -> Option<i64>
    ensures { result ≡ first_number params.now (tokens_of bytes.now tokens.now) }
{
    match tokens {
        [] => None,
        [token, ..] => number_of(params, token.form, token.text(bytes)),
    }
}

// ---- what was seen

fn begun(token: &Kept) -> Seen
    ensures { (bytes : List ℕ) → result ≡ begun (token_of bytes token.now) }
{
    if is_sign(Symbol::Var, token) {
        Seen::Var
    } else if is_sign(Symbol::Array, token) {
        Seen::Index(false)
    } else if is_sign(Symbol::Solve, token) {
        Seen::Solve
    } else {
        Seen::Other
    }
}

fn after_var(token: &Kept) -> Seen
    ensures { (bytes : List ℕ) → result ≡ after_var (token_of bytes token.now) }
{
    if is_sign(Symbol::Int, token) {
        Seen::Mended(Change::Unbounded, part_of(token))
    } else {
        Seen::Other
    }
}

fn after_index(is_empty: bool, token: &Kept) -> Seen
    ensures { (bytes : List ℕ) → result ≡ after_index is_empty (token_of bytes token.now) }
{
    if is_sign(Symbol::Of, token) {
        if is_empty { Seen::Element } else { Seen::Other }
    } else if is_sign(Symbol::Dots, token) {
        Seen::Index(is_empty)
    } else if is_sign(Symbol::CloseBracket, token) {
        Seen::Index(is_empty)
    } else {
        Seen::Index(is_zero(token.form))
    }
}

fn after_of(token: &Kept) -> Seen
    ensures { (bytes : List ℕ) → result ≡ after_of (token_of bytes token.now) }
{
    if is_sign(Symbol::Var, token) {
        Seen::Element
    } else if is_sign(Symbol::Set, token) {
        Seen::Sets(part_of(token))
    } else {
        Seen::Other
    }
}

fn after_set(part: Part, token: &Kept) -> Seen
    ensures { (bytes : List ℕ) → result ≡ after_set part (token_of bytes token.now) }
{
    if is_sign(Symbol::Colon, token) {
        Seen::Mended(Change::Sets, part)
    } else {
        Seen::Sets(Part {
            start: part.start,
            end: token.end as usize,
        })
    }
}

fn after_type(change: Change, part: Part, token: &Kept) -> Seen
    ensures { (bytes : List ℕ) → result ≡ after_type change part (token_of bytes token.now) }
{
    if is_sign(Symbol::Colon, token) {
        Seen::Mended(change, part)
    } else {
        Seen::Other
    }
}

fn after_goal(is_least: bool, number: Option<i64>) -> Seen
    ensures { result ≡ after_goal is_least number }
{
    match number {
        None => Seen::Other,
        Some(number) => Seen::Goal(is_least, number),
    }
}

fn after_solve(number: Option<i64>, token: &Kept) -> Seen
    ensures { (bytes : List ℕ) → result ≡ after_solve number (token_of bytes token.now) }
{
    if is_sign(Symbol::Minimize, token) {
        after_goal(true, number)
    } else if is_sign(Symbol::Maximize, token) {
        after_goal(false, number)
    } else {
        Seen::Solve
    }
}

fn after(number: Option<i64>, seen: Seen, token: &Kept) -> Seen
    ensures { (bytes : List ℕ) → result ≡ seen_after number seen (token_of bytes token.now) }
{
    match seen {
        Seen::Nothing => begun(token),
        Seen::Var => after_var(token),
        Seen::Index(is_empty) => after_index(is_empty, token),
        Seen::Element => after_of(token),
        Seen::Sets(part) => after_set(part, token),
        Seen::Mended(change, part) => after_type(change, part, token),
        Seen::Solve => after_solve(number, token),
        Seen::Goal(..) => Seen::Other,
        Seen::Other => Seen::Other,
    }
}

/// What is seen behind the token, where this number stands behind it, or none.
fn next(number: Option<i64>, seen: Seen, token: &Kept) -> Seen
    ensures { (bytes : List ℕ) → result ≡ next number seen (token_of bytes token.now) }
{
    if is_sign(Symbol::Semicolon, token) {
        Seen::Nothing
    } else {
        after(number, seen, token)
    }
}

// ---- what stands in the place of a token

fn push_bounds(mended: &mut Items<Kept>, token: &Kept) -> Result<(), AllocError>
    ensures { (bytes : List ℕ) → OnOk result (tokens_of bytes mended.new ≡ tokens_of bytes mended.old ++ bounds_at (token_of bytes token.now)) }
{
    mended.push(put_at(token, TokenForm::Int(-1_000_000_000)))?;
    mended.push(put_at(token, TokenForm::Symbol(Symbol::Dots)))?;
    mended.push(put_at(token, TokenForm::Int(1_000_000_000)))
}

/// The token behind `var`.
fn push_after_var(mended: &mut Items<Kept>, token: &Kept) -> Result<(), AllocError>
    ensures { (bytes : List ℕ) → OnOk result (tokens_of bytes mended.new ≡ tokens_of bytes mended.old ++ instead_after_var (token_of bytes token.now)) }
{
    if is_sign(Symbol::Int, token) {
        push_bounds(mended, token)
    } else {
        mended.push(*token)
    }
}

/// The token behind the `of` of an empty array.
fn push_after_of(mended: &mut Items<Kept>, token: &Kept) -> Result<(), AllocError>
    ensures { (bytes : List ℕ) → OnOk result (tokens_of bytes mended.new ≡ tokens_of bytes mended.old ++ instead_after_of (token_of bytes token.now)) }
{
    if is_sign(Symbol::Set, token) {
        mended.push(put_at(token, TokenForm::Symbol(Symbol::Int)))
    } else {
        mended.push(*token)
    }
}

/// Nothing, but for the end of the file.
fn push_end(mended: &mut Items<Kept>, token: &Kept) -> Result<(), AllocError>
    ensures { (bytes : List ℕ) → OnOk result (tokens_of bytes mended.new ≡ tokens_of bytes mended.old ++ end_alone (token_of bytes token.now)) }
{
    if is_sign(Symbol::End, token) {
        mended.push(*token)?;
    }
    Ok(())
}

/// The token behind the `set` of an empty array.
fn push_after_set(mended: &mut Items<Kept>, token: &Kept) -> Result<(), AllocError>
    ensures { (bytes : List ℕ) → OnOk result (tokens_of bytes mended.new ≡ tokens_of bytes mended.old ++ instead_after_set (token_of bytes token.now)) }
{
    if is_sign(Symbol::Colon, token) {
        mended.push(*token)
    } else {
        push_end(mended, token)
    }
}

/// `minimize` or `maximize`, before this number or none.
fn push_satisfied(
    mended: &mut Items<Kept>,
    number: Option<i64>,
    token: &Kept,
) -> Result<(), AllocError>
    ensures { (bytes : List ℕ) → OnOk result (tokens_of bytes mended.new ≡ tokens_of bytes mended.old ++ satisfied_at number (token_of bytes token.now)) }
{
    match number {
        None => mended.push(*token),
        Some(_) => mended.push(put_at(token, TokenForm::Symbol(Symbol::Satisfy))),
    }
}

/// The token behind `solve`.
fn push_after_solve(
    mended: &mut Items<Kept>,
    number: Option<i64>,
    token: &Kept,
) -> Result<(), AllocError>
    ensures { (bytes : List ℕ) → OnOk result (tokens_of bytes mended.new ≡ tokens_of bytes mended.old ++ instead_after_solve number (token_of bytes token.now)) }
{
    if is_sign(Symbol::Minimize, token) {
        push_satisfied(mended, number, token)
    } else if is_sign(Symbol::Maximize, token) {
        push_satisfied(mended, number, token)
    } else {
        mended.push(*token)
    }
}

fn push_instead(
    mended: &mut Items<Kept>,
    number: Option<i64>,
    seen: Seen,
    token: &Kept,
) -> Result<(), AllocError>
    ensures { (bytes : List ℕ) → OnOk result (tokens_of bytes mended.new ≡ tokens_of bytes mended.old ++ instead number seen (token_of bytes token.now)) }
{
    match seen {
        Seen::Var => push_after_var(mended, token),
        Seen::Element => push_after_of(mended, token),
        Seen::Sets(_) => push_after_set(mended, token),
        Seen::Solve => push_after_solve(mended, number, token),
        Seen::Goal(..) => push_end(mended, token),
        Seen::Nothing => mended.push(*token),
        Seen::Index(_) => mended.push(*token),
        Seen::Mended(..) => mended.push(*token),
        Seen::Other => mended.push(*token),
    }
}

fn mended_of(
    alloc: Global,
    bytes: &[u8],
    params: &[Param],
    mut tokens: &[Kept],
) -> Result<Items<Kept>, AllocError>
    ensures { IfOk result (λ found. tokens_of bytes.now found ≡ mended params.now (tokens_of bytes.now tokens.now)) }
{
    let mut found = Items::new(alloc);
    let mut seen = Seen::Nothing;
    while let [token, later @ ..] = tokens {
        let number = first_number(bytes, params, later);
        push_instead(&mut found, number, seen, token)?;
        seen = next(number, seen, token);
        tokens = later;
    }
    Ok(found)
}

// ---- what is mended

/// The place of this type, where the token is a name.
fn push_named(
    places: &mut Items<Place>,
    change: Change,
    at: Part,
    token: &Kept,
) -> Result<(), AllocError>
    ensures { (bytes : List ℕ) → OnOk result (places.new ≡ places.old ++ named_at change at (token_of bytes token.now)) }
{
    match token.form {
        TokenForm::Name => {
            let name = part_of(token);
            places.push(Place { change, name, at })
        }
        TokenForm::Symbol(_) => Ok(()),
        TokenForm::Int(_) => Ok(()),
        TokenForm::Text => Ok(()),
    }
}

fn push_place(places: &mut Items<Place>, seen: Seen, token: &Kept) -> Result<(), AllocError>
    ensures { (bytes : List ℕ) → OnOk result (places.new ≡ places.old ++ mended_at seen (token_of bytes token.now)) }
{
    match seen {
        Seen::Mended(change, at) => push_named(places, change, at, token),
        _ => Ok(()),
    }
}

fn places_of(
    alloc: Global,
    bytes: &[u8],
    params: &[Param],
    mut tokens: &[Kept],
) -> Result<Items<Place>, AllocError>
    ensures { IfOk result (λ found. found ≡ mended_places params.now (tokens_of bytes.now tokens.now)) }
{
    let mut found = Items::new(alloc);
    let mut seen = Seen::Nothing;
    while let [token, later @ ..] = tokens {
        let number = first_number(bytes, params, later);
        push_place(&mut found, seen, token)?;
        seen = next(number, seen, token);
        tokens = later;
    }
    Ok(found)
}

fn constant_at(seen: Seen, token: &Kept) -> Option<ConstantGoal>
    ensures { (bytes : List ℕ) → result ≡ constant_at seen (token_of bytes token.now) }
{
    match seen {
        Seen::Goal(is_least, value) => Some(ConstantGoal {
            is_least,
            value,
            at: part_of(token),
        }),
        _ => None,
    }
}

fn constant_of(bytes: &[u8], params: &[Param], mut tokens: &[Kept]) -> Option<ConstantGoal>
    ensures { result ≡ constant params.now (tokens_of bytes.now tokens.now) }
{
    let mut seen = Seen::Nothing;
    while let [token, later @ ..] = tokens {
        let number = first_number(bytes, params, later);
        if let Some(constant) = constant_at(seen, token) {
            return Some(constant);
        }
        seen = next(number, seen, token);
        tokens = later;
    }
    None
}

// ---- a file

/// The tokens of a file with these parameters, mended. It answers `Err` where memory runs out.
pub fn mended_tokens<'a>(
    alloc: Global,
    tokens: &'a TokenList<'_>,
    params: &[Param],
) -> Result<TokenList<'a>, AllocError>
    ensures { IfOk result (λ told. told ≡ mended params.now tokens.now) }
{
    let Parts { file, kept } = tokens.parts();
    let bytes = file.bytes();
    if bytes.len() > MAX_FILE {
        // Not reached: a file that has tokens is no longer.
        return Err(AllocError);
    }
    let found = mended_of(alloc, bytes, params, kept)?;
    Ok(TokenList::new(bytes, found))
}

/// The types that are mended in a file with these parameters, in order. It answers `Err` where memory runs out.
pub fn mended_types(
    alloc: Global,
    tokens: &TokenList<'_>,
    params: &[Param],
) -> Result<Items<Place>, AllocError>
    ensures { IfOk result (λ found. found ≡ mended_places params.now tokens.now) }
{
    let Parts { file, kept } = tokens.parts();
    places_of(alloc, file.bytes(), params, kept)
}

/// The goal of a file with these parameters, where it is a constant.
pub fn constant_goal(tokens: &TokenList<'_>, params: &[Param]) -> Option<ConstantGoal>
    ensures { result ≡ constant params.now tokens.now }
{
    let Parts { file, kept } = tokens.parts();
    constant_of(file.bytes(), params, kept)
}
