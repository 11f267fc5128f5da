// One line, without its line feed, to the step that it spells.
ghost use Rattle.std.specs.Prelude.{◌≡◌, ◌==◌, not, ◌&&◌, ◌≤◌, length, ⊤, IfOk, IfSome, IfNone};
ghost use Rattle.std.specs.Option.{option_map};
ghost use Rattle.fzn_cert.specs.declared.step.Step.{Step};
ghost use Rattle.fzn_cert.specs.Spelling.{step_text, IsSpelled, HasLine};
ghost use Rattle.std.specs.List.{list_all};
ghost use Rattle.fzn_cert.specs.Words.{is_value};
ghost use Rattle.fzn_cert.specs.Reading.{infer_of, resolve_of, solution_of, delete_of, is_deletion, ids_rise, step_of_words, step_of};

use crate::number::{is_value, number_of};
use crate::rule::rule_of;
use crate::words::{items_before_mark, items_of, words_of};
use bstr::Split;
use fzn_cert::{Inference, LAST_STEP, LINE_LIMIT, Step, Version};
use fzn_domain::{Lit, Memory};
use std::alloc::Global;

/// The step that a line spells after so many steps, the line without its line feed and with at most `LINE_LIMIT` bytes. It answers `None`
/// where the line spells no step of the version, or where there are `LAST_STEP` steps already, and `Err` where memory runs out.
pub fn step_after(
    alloc: Global,
    line: &[u8],
    version: Version,
    steps: u64,
) -> Result<Option<Step>, Memory>
    requires { length line.now ≤ LINE_LIMIT }
    ensures found { IfOk result (λ found. IfSome found (HasLine version steps)) }
    ensures text { IfOk result (λ found. IfSome found (λ step. line.now ≡ step_text step)) }
    ensures none { IfOk result (λ found. IfNone found ((step : Step) → HasLine version steps step → line.now ≡ step_text step → ⊥)) }
{
    if steps >= LAST_STEP {
        return Ok(None);
    }
    step_of_line(alloc, line, version)
}

/// The step that a line spells, whatever its number.
fn step_of_line(alloc: Global, line: &[u8], version: Version) -> Result<Option<Step>, Memory>
    // What is read is spelled so.
    ensures found { IfOk result (λ found. IfSome found (λ step. IsSpelled version step)) }
    ensures text { IfOk result (λ found. IfSome found (λ step. line.now ≡ step_text step)) }
    // What is spelled so is read.
    ensures none { IfOk result (λ found. IfNone found ((step : Step) → IsSpelled version step → line.now ≡ step_text step → ⊥)) }
{
    read_line(alloc, line, version)
}

/// The step that a line spells in this version, whatever its number, the line without its line feed. It answers `None` where the line
/// spells no step of the version, and `Err` where memory runs out.
pub fn read_line(alloc: Global, line: &[u8], version: Version) -> Result<Option<Step>, Memory>
    ensures { IfOk result (λ found. found ≡ step_of version line.now) }
{
    read_words(alloc, words_of(line), version)
}

#[tactic(auto, unfolding(fzn_cert::specs::Reading::step_of_words))]
fn read_words(
    alloc: Global,
    mut words: Split<'_, '_>,
    version: Version,
) -> Result<Option<Step>, Memory>
    ensures { IfOk result (λ found. found ≡ step_of_words version words.entry) }
{
    match words.next() {
        Some(kind) => {
            if kind == b"i".as_slice() {
                read_infer(alloc, words)
            } else if kind == b"r".as_slice() {
                read_resolve(alloc, words)
            } else if kind == b"s".as_slice() {
                read_solution(alloc, words)
            } else if kind == b"d".as_slice() {
                read_delete(alloc, words, version)
            } else {
                Ok(None)
            }
        }
        None => Ok(None),
    }
}

#[tactic(auto, unfolding(fzn_cert::specs::Reading::infer_of))]
fn read_infer(alloc: Global, mut words: Split<'_, '_>) -> Result<Option<Step>, Memory>
    ensures { IfOk result (λ found. found ≡ infer_of words.entry) }
{
    let Some(number) = words.next() else {
        return Ok(None);
    };
    let Some(name) = words.next() else {
        return Ok(None);
    };
    let Some(constraint) = number_of(number) else {
        return Ok(None);
    };
    let Some(hints) = items_before_mark::<i64>(alloc, &mut words)? else {
        return Ok(None);
    };
    let Some(rule) = rule_of(name, hints) else {
        return Ok(None);
    };
    let Some(clause) = items_of::<Lit>(alloc, words)? else {
        return Ok(None);
    };
    Ok(Some(Step::Infer(Inference {
        constraint,
        rule,
        clause,
    })))
}

#[tactic(auto, unfolding(fzn_cert::specs::Reading::resolve_of))]
fn read_resolve(alloc: Global, mut words: Split<'_, '_>) -> Result<Option<Step>, Memory>
    ensures { IfOk result (λ found. found ≡ resolve_of words.entry) }
{
    let Some(clause) = items_before_mark::<Lit>(alloc, &mut words)? else {
        return Ok(None);
    };
    let Some(ids) = items_of::<u64>(alloc, words)? else {
        return Ok(None);
    };
    Ok(Some(Step::Resolve { clause, ids }))
}

#[tactic(auto, unfolding(fzn_cert::specs::Reading::solution_of))]
fn read_solution(alloc: Global, words: Split<'_, '_>) -> Result<Option<Step>, Memory>
    ensures { IfOk result (λ found. found ≡ solution_of words.entry) }
{
    let Some(values) = items_of::<i64>(alloc, words)? else {
        return Ok(None);
    };
    if are_values(values.as_slice()) {
        Ok(Some(Step::Solution(values)))
    } else {
        Ok(None)
    }
}

fn are_values(numbers: &[i64]) -> bool
    ensures { result ≡ list_all is_value numbers.now }
{
    numbers.iter().all(|number| is_value(*number))
}

#[tactic(auto, unfolding(fzn_cert::specs::Reading::delete_of))]
fn read_delete(
    alloc: Global,
    words: Split<'_, '_>,
    version: Version,
) -> Result<Option<Step>, Memory>
    ensures { IfOk result (λ found. found ≡ delete_of version words.entry) }
{
    match version {
        Version::One => Ok(None),
        Version::Two => {
            let Some(ids) = items_of::<u64>(alloc, words)? else {
                return Ok(None);
            };
            if is_deletion(ids.as_slice()) {
                Ok(Some(Step::Delete { ids }))
            } else {
                Ok(None)
            }
        }
    }
}

/// Whether a deletion may have these ids: there are some, and each is below the next.
pub fn is_deletion(ids: &[u64]) -> bool
    ensures { result ≡ is_deletion ids.now }
{
    !ids.is_empty() && ids_rise(ids)
}

fn ids_rise(ids: &[u64]) -> bool
    ensures { result ≡ ids_rise ids.now }
{
    let mut left = ids;
    while left.len() > 1 {
        if left[1] <= left[0] {
            return false;
        }
        left = &left[1..];
    }
    true
}
