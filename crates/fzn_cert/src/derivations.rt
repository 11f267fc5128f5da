// The line of a derivation, word after word.
ghost use Rattle.std.specs.Prelude.{◌≡◌, ◌++◌, [], ◌∷◌, map, codes, OnOk, string_bytes};
ghost use Rattle.std.specs.List.{flat_map};
ghost use Rattle.std.specs.Fmt.{decimal};
ghost use Rattle.fzn_cert.specs.Derivations.{multiple_words, var_text, priced_words, item_words, derivation_text};
ghost use Rattle.fzn_cert.specs.Parts.{after_space, after_spaces, derivation_parts};

use crate::line::{push_ids, push_integers};
use fzn_cited::Multiple;
use fzn_derive::Derivation;
use fzn_domain::{Memory, VarId};
use fzn_row::RowItem;
use itoa::Buffer;

/// Appends the text of a derivation, without a line feed. It answers `Err` where memory runs out, and nothing is known of the text then.
#[tactic(auto, using(crate::proofs::SpaceLaws::derivation_text_is))]
pub fn push_derivation(text: &mut String, derivation: &Derivation) -> Result<(), Memory>
    ensures { OnOk result (string_bytes text.new ≡ string_bytes text.old ++ derivation_text derivation.now) }
{
    push_parts(text, derivation)
}

fn push_parts(text: &mut String, derivation: &Derivation) -> Result<(), Memory>
    ensures { OnOk result (string_bytes text.new ≡ string_bytes text.old ++ derivation_parts derivation.now) }
{
    match derivation {
        Derivation::Sum(multiples) => {
            text.push_str("c lin ;")?;
            push_multiples(text, multiples.as_slice())
        }
        Derivation::Parity(constraints) => {
            text.push_str("c xor ;")?;
            push_ids(text, constraints.as_slice())
        }
        Derivation::AllDifferent {
            variables,
            constraints,
        } => {
            text.push_str("c alldiff ;")?;
            push_apart(text, variables.as_slice(), constraints.as_slice())
        }
        Derivation::Row(items) => {
            text.push_str("c row ;")?;
            push_items(text, items.as_slice())
        }
    }
}

fn push_multiples(text: &mut String, multiples: &[Multiple]) -> Result<(), Memory>
    ensures { OnOk result (string_bytes text.new ≡ string_bytes text.old ++ after_spaces (flat_map multiple_words multiples.now)) }
{
    for multiple in multiples {
        push_multiple(text, multiple)?;
    }
    Ok(())
}

fn push_multiple(text: &mut String, multiple: &Multiple) -> Result<(), Memory>
    ensures { OnOk result (string_bytes text.new ≡ string_bytes text.old ++ after_spaces (multiple_words multiple.now)) }
{
    text.push(' ')?;
    text.push_str(Buffer::new().format(multiple.multiplier))?;
    text.push(' ')?;
    text.push_str(Buffer::new().format(multiple.constraint))?;
    Ok(())
}

/// The variables, the mark, and the constraints that tell them apart.
fn push_apart(text: &mut String, variables: &[VarId], constraints: &[u64]) -> Result<(), Memory>
    ensures { OnOk result (string_bytes text.new ≡ string_bytes text.old ++ (after_spaces (map var_text variables.now) ++ codes " ;" ++ after_spaces (map decimal constraints.now))) }
{
    push_variables(text, variables)?;
    text.push_str(" ;")?;
    push_ids(text, constraints)
}

fn push_variables(text: &mut String, variables: &[VarId]) -> Result<(), Memory>
    ensures { OnOk result (string_bytes text.new ≡ string_bytes text.old ++ after_spaces (map var_text variables.now)) }
{
    for var in variables {
        text.push(' ')?;
        text.push_str(Buffer::new().format(var.0))?;
    }
    Ok(())
}

fn push_items(text: &mut String, items: &[RowItem]) -> Result<(), Memory>
    ensures { OnOk result (string_bytes text.new ≡ string_bytes text.old ++ after_spaces (flat_map item_words items.now)) }
{
    for item in items {
        push_item(text, item)?;
    }
    Ok(())
}

fn push_item(text: &mut String, item: &RowItem) -> Result<(), Memory>
    ensures { OnOk result (string_bytes text.new ≡ string_bytes text.old ++ after_spaces (item_words item.now)) }
{
    match item {
        RowItem::Multiples(multiples) => {
            text.push_str(" l")?;
            push_multiples(text, multiples.as_slice())
        }
        RowItem::Prices {
            constraint,
            low,
            prices,
        } => {
            text.push_str(" p")?;
            push_number(text, *constraint)?;
            push_priced(text, *low, prices.as_slice())
        }
        RowItem::Move {
            constraint,
            variable,
        } => {
            text.push_str(" m")?;
            push_at_variable(text, *constraint, *variable)
        }
        RowItem::Columns {
            constraint,
            column,
            low,
            prices,
        } => {
            text.push_str(" t")?;
            push_number(text, *constraint)?;
            push_number(text, *column)?;
            push_priced(text, *low, prices.as_slice())
        }
        RowItem::Rows {
            constraint,
            variable,
        } => {
            text.push_str(" w")?;
            push_at_variable(text, *constraint, *variable)
        }
    }
}

fn push_number(text: &mut String, number: u64) -> Result<(), Memory>
    ensures { OnOk result (string_bytes text.new ≡ string_bytes text.old ++ after_space (decimal number)) }
{
    text.push(' ')?;
    text.push_str(Buffer::new().format(number))?;
    Ok(())
}

fn push_priced(text: &mut String, low: i64, prices: &[i64]) -> Result<(), Memory>
    ensures { OnOk result (string_bytes text.new ≡ string_bytes text.old ++ after_spaces (priced_words low prices.now)) }
{
    text.push(' ')?;
    text.push_str(Buffer::new().format(low))?;
    push_integers(text, prices)
}

fn push_at_variable(text: &mut String, constraint: u64, variable: VarId) -> Result<(), Memory>
    ensures { OnOk result (string_bytes text.new ≡ string_bytes text.old ++ after_spaces (decimal constraint ∷ var_text variable ∷ [])) }
{
    push_number(text, constraint)?;
    text.push(' ')?;
    text.push_str(Buffer::new().format(variable.0))?;
    Ok(())
}
