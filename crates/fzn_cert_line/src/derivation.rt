// One line, without its line feed, to the derivation that it spells.
ghost use Rattle.std.specs.Prelude.{◌≡◌, ◌&&◌, IfOk, IfSome, IfNone};
ghost use Rattle.fzn_derive.specs.declared.derivation.Derivation.{Derivation};
ghost use Rattle.fzn_cert.specs.Derivations.{derivation_text, IsDerivation, multiples_of, named_derivation, derivation_of_words, derivation_of};

use crate::number::{multiplier_of, number_of};
use crate::row::row_items_of;
use crate::words::{Item, items_before_mark, items_of, words_of};
use bstr::Split;
use fzn_cited::Multiple;
use fzn_derive::Derivation;
use fzn_domain::{Memory, VarId};
use fzn_list::Items;
use std::alloc::Global;

/// The derivation that a line spells, the line without its line feed. It answers `None` where the line spells none, and `Err` where memory
/// runs out.
pub fn derivation_of_line(alloc: Global, line: &[u8]) -> Result<Option<Derivation>, Memory>
    // What is read is spelled so.
    ensures found { IfOk result (λ found. IfSome found IsDerivation) }
    ensures text { IfOk result (λ found. IfSome found (λ derivation. line.now ≡ derivation_text derivation)) }
    // What is spelled so is read.
    ensures none { IfOk result (λ found. IfNone found ((derivation : Derivation) → IsDerivation derivation → line.now ≡ derivation_text derivation → ⊥)) }
{
    read_derivation(alloc, line)
}

fn read_derivation(alloc: Global, line: &[u8]) -> Result<Option<Derivation>, Memory>
    ensures { IfOk result (λ found. found ≡ derivation_of line.now) }
{
    read_words(alloc, words_of(line))
}

#[tactic(auto, unfolding(fzn_cert::specs::Derivations::derivation_of_words))]
fn read_words(alloc: Global, mut words: Split<'_, '_>) -> Result<Option<Derivation>, Memory>
    ensures { IfOk result (λ found. found ≡ derivation_of_words words.entry) }
{
    let Some(kind) = words.next() else {
        return Ok(None);
    };
    let Some(name) = words.next() else {
        return Ok(None);
    };
    let Some(mark) = words.next() else {
        return Ok(None);
    };
    if kind == b"c".as_slice() && mark == b";".as_slice() {
        read_named(alloc, name, words)
    } else {
        Ok(None)
    }
}

/// The derivation of this name, of the words behind the mark.
#[tactic(auto, unfolding(fzn_cert::specs::Derivations::named_derivation))]
fn read_named(
    alloc: Global,
    name: &[u8],
    mut words: Split<'_, '_>,
) -> Result<Option<Derivation>, Memory>
    ensures { IfOk result (λ found. found ≡ named_derivation name.now words.entry) }
{
    if name == b"lin".as_slice() {
        let Some(multiples) = multiples_of(alloc, words)? else {
            return Ok(None);
        };
        Ok(Some(Derivation::Sum(multiples)))
    } else if name == b"xor".as_slice() {
        let Some(constraints) = items_of::<u64>(alloc, words)? else {
            return Ok(None);
        };
        Ok(Some(Derivation::Parity(constraints)))
    } else if name == b"alldiff".as_slice() {
        let Some(variables) = items_before_mark::<VarId>(alloc, &mut words)? else {
            return Ok(None);
        };
        let Some(constraints) = items_of::<u64>(alloc, words)? else {
            return Ok(None);
        };
        Ok(Some(Derivation::AllDifferent {
            variables,
            constraints,
        }))
    } else if name == b"row".as_slice() {
        let Some(items) = row_items_of(alloc, words)? else {
            return Ok(None);
        };
        Ok(Some(Derivation::Row(items)))
    } else {
        Ok(None)
    }
}

/// The multiples that all the words spell, two by two.
fn multiples_of(alloc: Global, mut words: Split<'_, '_>) -> Result<Option<Items<Multiple>>, Memory>
    ensures { IfOk result (λ found. found ≡ multiples_of words.entry) }
{
    let mut multiples = Items::new(alloc);
    while let Some(word) = words.next() {
        let Some(multiplier) = multiplier_of(word) else {
            return Ok(None);
        };
        let Some(next) = words.next() else {
            return Ok(None);
        };
        let Some(constraint) = number_of(next) else {
            return Ok(None);
        };
        multiples.push(Multiple {
            multiplier,
            constraint,
        })?;
    }
    Ok(Some(multiples))
}

impl Item for VarId {
    ghost use Rattle.fzn_cert.specs.Derivations.{variable_of};

    ghost item_of = { variable_of };

    fn of_word(word: &[u8]) -> Option<VarId> {
        let number = number_of(word)?;
        Some(VarId(number as usize))
    }
}
