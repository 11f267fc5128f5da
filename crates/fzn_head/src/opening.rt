// The first lines of a certificate of version three.
ghost use Rattle.std.specs.Prelude.{◌≡◌, ◌++◌, ◌+◌, ◌<◌, ◌≤◌, false, true, length, string_bytes, option_map, IfOk, IsTrue};
ghost use Rattle.std.specs.List.{All};
ghost use Rattle.fzn_meaning.specs.Meaning.{longest, IsWellFormedConstraint};
ghost use Rattle.fzn_meaning.specs.WellFormed.{IsWellFormed};
ghost use Rattle.fzn_cert.specs.Derivations.{IsDerivation, IsMultiplier, IsMultiple, IsVariableNumber, IsFirstPriced, ArePriced, IsRowItem};
ghost use Rattle.fzn_cert.specs.Spelling.{IsNumber};
ghost use Rattle.fzn_head.specs.Extender.{IsReadyFor, most_terms};
ghost use Rattle.fzn_head.specs.Head.{three_line, head_counts_line};
ghost use Rattle.fzn_head.specs.Opening.{IsDerivedOpening, IsLinePushed};

use crate::extender::Extender;
use fzn_cert::{LAST_STEP, LINE_LIMIT, push_derivation};
use fzn_cited::{DeriveFault, Multiple};
use fzn_derive::Derivation;
use fzn_domain::{Memory, VarId};
use fzn_list::LONGEST;
use fzn_meaning::Model;
use fzn_row::RowItem;
use std::alloc::Global;

/// The largest multiplier and the largest price, and the smallest of each without its sign.
const MULTIPLIER_LIMIT: i64 = 1_000_000_000_000;

/// The largest number that may have the first price, and the smallest without its sign.
const FIRST_PRICED_LIMIT: i64 = 1_000_000_000;

/// Puts the constraints that these derivations give behind the model's own, and returns the lines that open a certificate which derives
/// them. A derivation is left out that gives none, that has no line, or by which there would be more than 100,000 constraints or 1,000,000
/// derived terms. Where all are, it returns `None`, and the model is as it was. It answers `Err` where memory runs out; some of the
/// constraints may stand behind the model's then.
pub fn open_with(
    alloc: Global,
    model: &mut Model,
    derivations: &[Derivation],
) -> Result<Option<String>, Memory>
    requires { IsWellFormed model.old }
    ensures { IfOk result (λ opening. IsDerivedOpening model.old model.new (option_map string_bytes opening)) }
{
    let variables = model.vars.len() as u64;
    let constraints = model.constraints.len() as u64;
    let mut extender = Extender::new(alloc, model.vars.len())?;
    let mut lines = String::new(alloc);
    let mut derived = 0;
    for derivation in derivations {
        if push_line(alloc, &mut extender, model, &mut lines, derivation)? {
            derived += 1;
        }
    }
    if derived == 0 {
        return Ok(None);
    }
    let mut text = first_lines(alloc, variables, constraints, derived)?;
    text.push_str(lines.as_str())?;
    Ok(Some(text))
}

/// Puts the constraint that the derivation gives behind the model's, and its line behind the others. It answers whether there is one, and
/// a line for it; else all is as before.
fn push_line(
    alloc: Global,
    extender: &mut Extender,
    model: &mut Model,
    lines: &mut String,
    derivation: &Derivation,
) -> Result<bool, Memory>
    requires ready { IsReadyFor (length model.old.vars) extender.old }
    requires formed { All (IsWellFormedConstraint (length model.old.vars)) model.old.constraints }
    requires few { length model.old.constraints ≤ longest }
    ensures ready { IsReadyFor (length model.old.vars) extender.new }
    ensures same_vars { model.new.vars ≡ model.old.vars }
    ensures same_most { most_terms extender.new model.new ≡ most_terms extender.old model.old }
    ensures pushed { IfOk result (λ pushed. pushed ≡ true → IsLinePushed model.old model.new derivation.now (string_bytes lines.old) (string_bytes lines.new)) }
    ensures left_out { IfOk result (λ pushed. pushed ≡ false → (model.new ≡ model.old) × (string_bytes lines.new ≡ string_bytes lines.old)) }
{
    if !is_spelled(derivation) || model.constraints.len() >= LONGEST {
        return Ok(false);
    }
    let mut line = String::new(alloc);
    push_derivation(&mut line, derivation)?;
    if line.len() > LINE_LIMIT {
        return Ok(false);
    }
    match extender.extend(alloc, model, derivation) {
        Ok(()) => {}
        Err(DeriveFault::Memory) => return Err(Memory),
        Err(_) => return Ok(false),
    }
    lines.push_str(line.as_str())?;
    lines.push_str("\n")?;
    Ok(true)
}

/// Whether each number of the derivation has a spelling.
#[tactic(auto, using(crate::proofs::SpelledLaws::sum_is_spelled, crate::proofs::SpelledLaws::parity_is_spelled, crate::proofs::SpelledLaws::apart_is_spelled, crate::proofs::SpelledLaws::row_is_spelled))]
fn is_spelled(derivation: &Derivation) -> bool
    ensures { IsTrue result → IsDerivation derivation.now }
{
    match derivation {
        Derivation::Sum(multiples) => are_multiples(multiples.as_slice()),
        Derivation::Parity(constraints) => are_numbers(constraints.as_slice()),
        Derivation::AllDifferent {
            variables,
            constraints,
        } => are_variables(variables.as_slice()) && are_numbers(constraints.as_slice()),
        Derivation::Row(items) => are_items(items.as_slice()),
    }
}

fn are_items(items: &[RowItem]) -> bool
    ensures { IsTrue result → All IsRowItem items.now }
{
    items.iter().all(|item| is_item(item))
}

#[tactic(auto, using(crate::proofs::SpelledLaws::multiples_are_spelled))]
fn is_item(item: &RowItem) -> bool
    ensures { IsTrue result → IsRowItem item.now }
{
    match item {
        RowItem::Multiples(multiples) => are_multiples(multiples.as_slice()),
        RowItem::Prices {
            constraint,
            low,
            prices,
        } => is_number(*constraint) && are_priced(*low, prices.as_slice()),
        RowItem::Columns {
            constraint,
            column,
            low,
            prices,
        } => is_number(*constraint) && is_number(*column) && are_priced(*low, prices.as_slice()),
        RowItem::Move {
            constraint,
            variable,
        }
        | RowItem::Rows {
            constraint,
            variable,
        } => is_number(*constraint) && is_number(variable.0 as u64),
    }
}

fn are_multiples(multiples: &[Multiple]) -> bool
    ensures { IsTrue result → All IsMultiple multiples.now }
{
    multiples.iter().all(|multiple| is_multiplier(multiple.multiplier)
        && is_number(multiple.constraint))
}

#[tactic(auto, using(crate::proofs::SpelledLaws::prices_are_spelled))]
fn are_priced(low: i64, prices: &[i64]) -> bool
    ensures { IsTrue result → ArePriced low prices.now }
{
    is_first_priced(low) && are_prices(prices)
}

fn are_prices(prices: &[i64]) -> bool
    ensures { IsTrue result → All IsMultiplier prices.now }
{
    prices.iter().all(|price| is_multiplier(*price))
}

fn is_multiplier(number: i64) -> bool
    ensures { IsTrue result → IsMultiplier number }
{
    -MULTIPLIER_LIMIT <= number && number <= MULTIPLIER_LIMIT
}

fn is_first_priced(number: i64) -> bool
    ensures { IsTrue result → IsFirstPriced number }
{
    -FIRST_PRICED_LIMIT <= number && number <= FIRST_PRICED_LIMIT
}

fn are_numbers(numbers: &[u64]) -> bool
    ensures { IsTrue result → All IsNumber numbers.now }
{
    numbers.iter().all(|number| is_number(*number))
}

fn are_variables(variables: &[VarId]) -> bool
    ensures { IsTrue result → All IsVariableNumber variables.now }
{
    variables.iter().all(|var| is_number(var.0 as u64))
}

/// From 1 on, of at most 18 digits.
fn is_number(number: u64) -> bool
    ensures { IsTrue result → IsNumber number }
{
    1 <= number && number <= LAST_STEP
}

/// The first two lines, with the counts of a head.
fn first_lines(
    alloc: Global,
    variables: u64,
    constraints: u64,
    derived: u64,
) -> Result<String, Memory>
    ensures { IfOk result (λ text. string_bytes text ≡ three_line ++ head_counts_line (record { variables = variables; constraints = constraints; derived = derived })) }
{
    Ok(format!(in alloc; "fzc 3\nvars {variables} cons {constraints} new {derived}\n")?)
}
