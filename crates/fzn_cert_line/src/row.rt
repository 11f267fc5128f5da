// The items of a row, of the words behind the mark.
ghost use Rattle.std.specs.Prelude.{◌≡◌, ◌∷◌, false, codes, drop, IfOk, IfSome, IfNone};
ghost use Rattle.std.specs.Option.{option_map};
ghost use Rattle.fzn_cert.specs.Words.{items_of};
ghost use Rattle.fzn_cert.specs.Derivations.{multiplier_of, multiples_of, priced_of, only_variable_of, behind_number, row_item_of, is_letter, items_among, row_items_of};
ghost use Rattle.fzn_cert_line.specs.Rows.{letter_word, from_letter, leading_number, up_to_item};

use crate::number::{first_priced_of, multiplier_of, number_of};
use bstr::Split;
use fzn_cited::Multiple;
use fzn_domain::{Memory, VarId};
use fzn_list::Items;
use fzn_row::RowItem;
use std::alloc::Global;

/// Which kind of item begins.
#[derive(Clone, Copy, Debug, PartialEq, Eq)]
pub enum Letter {
    /// `l`: multiples.
    Multiples,
    /// `p`: prices.
    Prices,
    /// `m`: a move.
    Move,
    /// `t`: prices of a column of a table.
    Columns,
    /// `w`: a move to the rows of a table.
    Rows,
}

/// The items that all the words spell.
#[tactic(auto, unfolding(fzn_cert::specs::Derivations::row_items_of))]
pub(crate) fn row_items_of(
    alloc: Global,
    mut words: Split<'_, '_>,
) -> Result<Option<Items<RowItem>>, Memory>
    ensures { IfOk result (λ found. found ≡ row_items_of words.entry) }
{
    let Some(word) = words.next() else {
        return Ok(Some(Items::new(alloc)));
    };
    match letter_of(word) {
        Some(letter) => items_from(alloc, letter, words),
        None => Ok(None),
    }
}

/// The items of the first letter and the words behind it.
fn items_from(
    alloc: Global,
    first: Letter,
    mut words: Split<'_, '_>,
) -> Result<Option<Items<RowItem>>, Memory>
    ensures { IfOk result (λ found. found ≡ items_among (letter_word first ∷ words.entry)) }
{
    let mut items = Items::new(alloc);
    let mut begun = Some(first);
    while let Some(letter) = begun {
        let Some((item, next)) = read_item(alloc, letter, &mut words)? else {
            return Ok(None);
        };
        items.push(item)?;
        begun = next;
    }
    Ok(Some(items))
}

/// The item of this letter, and the letter of the next one, which is taken too.
fn read_item(
    alloc: Global,
    letter: Letter,
    words: &mut Split<'_, '_>,
) -> Result<Option<(RowItem, Option<Letter>)>, Memory>
    ensures { IfOk result (λ found. option_map (λ read. (read.0, from_letter read.1 words.new)) found ≡ up_to_item (row_item_of (letter_word letter)) words.old) }
{
    match letter {
        Letter::Multiples => read_multiples(alloc, words),
        Letter::Prices => read_prices(alloc, words),
        Letter::Move => Ok(read_move(words)),
        Letter::Columns => read_columns(alloc, words),
        Letter::Rows => Ok(read_rows(words)),
    }
}

fn read_multiples(
    alloc: Global,
    words: &mut Split<'_, '_>,
) -> Result<Option<(RowItem, Option<Letter>)>, Memory>
    ensures { IfOk result (λ found. option_map (λ read. (read.0, from_letter read.1 words.new)) found ≡ up_to_item (row_item_of (codes "l")) words.old) }
{
    let Some((multiples, next)) = multiples_before_item(alloc, words)? else {
        return Ok(None);
    };
    Ok(Some((RowItem::Multiples(multiples), next)))
}

fn read_prices(
    alloc: Global,
    words: &mut Split<'_, '_>,
) -> Result<Option<(RowItem, Option<Letter>)>, Memory>
    ensures { IfOk result (λ found. option_map (λ read. (read.0, from_letter read.1 words.new)) found ≡ up_to_item (row_item_of (codes "p")) words.old) }
{
    let Some(constraint) = next_number(words) else {
        return Ok(None);
    };
    let Some((low, prices, next)) = priced_before_item(alloc, words)? else {
        return Ok(None);
    };
    Ok(Some((
        RowItem::Prices {
            constraint,
            low,
            prices,
        },
        next,
    )))
}

fn read_move(words: &mut Split<'_, '_>) -> Option<(RowItem, Option<Letter>)>
    ensures { option_map (λ read. (read.0, from_letter read.1 words.new)) result ≡ up_to_item (row_item_of (codes "m")) words.old }
{
    let Some((constraint, variable, next)) = at_variable_before_item(words) else {
        return None;
    };
    Some((
        RowItem::Move {
            constraint,
            variable,
        },
        next,
    ))
}

fn read_columns(
    alloc: Global,
    words: &mut Split<'_, '_>,
) -> Result<Option<(RowItem, Option<Letter>)>, Memory>
    ensures { IfOk result (λ found. option_map (λ read. (read.0, from_letter read.1 words.new)) found ≡ up_to_item (row_item_of (codes "t")) words.old) }
{
    let Some(constraint) = next_number(words) else {
        return Ok(None);
    };
    let Some(column) = next_number(words) else {
        return Ok(None);
    };
    let Some((low, prices, next)) = priced_before_item(alloc, words)? else {
        return Ok(None);
    };
    Ok(Some((
        RowItem::Columns {
            constraint,
            column,
            low,
            prices,
        },
        next,
    )))
}

fn read_rows(words: &mut Split<'_, '_>) -> Option<(RowItem, Option<Letter>)>
    ensures { option_map (λ read. (read.0, from_letter read.1 words.new)) result ≡ up_to_item (row_item_of (codes "w")) words.old }
{
    let Some((constraint, variable, next)) = at_variable_before_item(words) else {
        return None;
    };
    Some((
        RowItem::Rows {
            constraint,
            variable,
        },
        next,
    ))
}

/// The number that the next word spells, and the word is taken.
#[tactic(auto, unfolding(crate::specs::Rows::leading_number))]
fn next_number(words: &mut Split<'_, '_>) -> Option<u64>
    ensures number { result ≡ leading_number words.old }
    ensures rest { words.new ≡ drop 1 words.old }
{
    let word = words.next()?;
    number_of(word)
}

/// The number of a constraint and a variable, which end the item, and the letter of the next item, which is taken too.
fn at_variable_before_item(words: &mut Split<'_, '_>) -> Option<(u64, VarId, Option<Letter>)>
    ensures { option_map (λ read. ((read.0, read.1), from_letter read.2 words.new)) result ≡ up_to_item (behind_number only_variable_of) words.old }
{
    let Some(constraint) = next_number(words) else {
        return None;
    };
    let Some((variable, next)) = variable_before_item(words) else {
        return None;
    };
    Some((constraint, variable, next))
}

/// The variable that ends the item, and the letter of the next item, which is taken too.
fn variable_before_item(words: &mut Split<'_, '_>) -> Option<(VarId, Option<Letter>)>
    ensures { option_map (λ read. (read.0, from_letter read.1 words.new)) result ≡ up_to_item only_variable_of words.old }
{
    let Some(word) = words.next() else {
        return None;
    };
    let Some(number) = number_of(word) else {
        return None;
    };
    let variable = VarId(number as usize);
    let Some(behind) = words.next() else {
        return Some((variable, None));
    };
    match letter_of(behind) {
        Some(letter) => Some((variable, Some(letter))),
        None => None,
    }
}

/// The multiples up to the next item, and its letter, which is taken too.
fn multiples_before_item(
    alloc: Global,
    words: &mut Split<'_, '_>,
) -> Result<Option<(Items<Multiple>, Option<Letter>)>, Memory>
    ensures { IfOk result (λ found. option_map (λ read. (read.0, from_letter read.1 words.new)) found ≡ up_to_item multiples_of words.old) }
{
    let mut multiples = Items::new(alloc);
    while let Some(word) = words.next() {
        if let Some(letter) = letter_of(word) {
            return Ok(Some((multiples, Some(letter))));
        }
        let Some(multiplier) = multiplier_of(word) else {
            return Ok(None);
        };
        let Some(next) = words.next() else {
            return Ok(None);
        };
        let Some(constraint) = number_of(next) else {
            return Ok(None);
        };
        multiples.push(Multiple {
            multiplier,
            constraint,
        })?;
    }
    Ok(Some((multiples, None)))
}

/// The number that has the first price, and the prices up to the next item, and its letter, which is taken too.
fn priced_before_item(
    alloc: Global,
    words: &mut Split<'_, '_>,
) -> Result<Option<(i64, Items<i64>, Option<Letter>)>, Memory>
    ensures { IfOk result (λ found. option_map (λ read. ((read.0, read.1), from_letter read.2 words.new)) found ≡ up_to_item priced_of words.old) }
{
    let Some(first) = words.next() else {
        return Ok(None);
    };
    let Some(low) = first_priced_of(first) else {
        return Ok(None);
    };
    let Some((prices, next)) = prices_before_item(alloc, words)? else {
        return Ok(None);
    };
    Ok(Some((low, prices, next)))
}

/// The prices up to the next item, and its letter, which is taken too.
fn prices_before_item(
    alloc: Global,
    words: &mut Split<'_, '_>,
) -> Result<Option<(Items<i64>, Option<Letter>)>, Memory>
    ensures { IfOk result (λ found. option_map (λ read. (read.0, from_letter read.1 words.new)) found ≡ up_to_item (items_of multiplier_of) words.old) }
{
    let mut prices = Items::new(alloc);
    while let Some(word) = words.next() {
        if let Some(letter) = letter_of(word) {
            return Ok(Some((prices, Some(letter))));
        }
        let Some(price) = multiplier_of(word) else {
            return Ok(None);
        };
        prices.push(price)?;
    }
    Ok(Some((prices, None)))
}

/// The letter that a word is, where an item begins with it.
#[tactic(auto, unfolding(fzn_cert::specs::Derivations::is_letter))]
fn letter_of(word: &[u8]) -> Option<Letter>
    ensures some { IfSome result (λ letter. word.now ≡ letter_word letter) }
    ensures none { IfNone result (is_letter word.now ≡ false) }
{
    if word == b"l".as_slice() {
        Some(Letter::Multiples)
    } else if word == b"p".as_slice() {
        Some(Letter::Prices)
    } else if word == b"m".as_slice() {
        Some(Letter::Move)
    } else if word == b"t".as_slice() {
        Some(Letter::Columns)
    } else if word == b"w".as_slice() {
        Some(Letter::Rows)
    } else {
        None
    }
}
