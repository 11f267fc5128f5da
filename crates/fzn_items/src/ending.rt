// The lines of search annotations, of the goal, of mended places and of the counts.
ghost use Rattle.std.specs.Prelude.{◌≡◌, ◌++◌, OnOk, slice_range};
ghost use Rattle.std.specs.List.{flat_map};
ghost use Rattle.fzn_items.specs.Ending.{var_choice_name, value_choice_name, search_line, direction, goal_words, goal_line, part_text, change_word, place_line, constant_line, tally_text, counts_line};
ghost use Rattle.fzn_items.specs.Pieces.{variable_text};

use crate::counts::Counts;
use crate::pieces::{push_bytes, push_integer, push_number, push_place, push_range, push_variable};
use fzn_domain::VarId;
use fzn_lexer::Span;
use fzn_meaning::Goal;
use fzn_mending::{Change, ConstantGoal, Part, Place};
use fzn_strategy::{Annotation, ValueChoice, VarChoice};
use std::alloc::AllocError;

// ---- search annotations

fn var_choice_name(choice: VarChoice) -> &'static [u8]
    ensures { result.now ≡ var_choice_name choice }
{
    match choice {
        VarChoice::InputOrder => b"input_order",
        VarChoice::FirstFail => b"first_fail",
        VarChoice::AntiFirstFail => b"anti_first_fail",
        VarChoice::Smallest => b"smallest",
        VarChoice::Largest => b"largest",
    }
}

fn value_choice_name(choice: ValueChoice) -> &'static [u8]
    ensures { result.now ≡ value_choice_name choice }
{
    match choice {
        ValueChoice::Min => b"indomain_min",
        ValueChoice::Max => b"indomain_max",
        ValueChoice::Split => b"indomain_split",
        ValueChoice::ReverseSplit => b"indomain_reverse_split",
    }
}

fn push_vars(text: &mut Vec<u8>, vars: &[VarId]) -> Result<(), AllocError>
    ensures { OnOk result (text.new.items ≡ text.old.items ++ flat_map variable_text vars.now) }
{
    for var in vars {
        push_variable(text, *var)?;
    }
    Ok(())
}

fn push_search(text: &mut Vec<u8>, annotation: &Annotation) -> Result<(), AllocError>
    ensures { OnOk result (text.new.items ≡ text.old.items ++ search_line annotation.now) }
{
    push_bytes(text, b"search ")?;
    push_bytes(text, var_choice_name(annotation.var_choice))?;
    push_bytes(text, b" ")?;
    push_bytes(text, value_choice_name(annotation.value_choice))?;
    push_bytes(text, b" :")?;
    push_vars(text, annotation.vars.as_slice())?;
    push_bytes(text, b"\n")
}

/// The lines of these annotations.
pub fn push_searches(text: &mut Vec<u8>, annotations: &[Annotation]) -> Result<(), AllocError>
    ensures { OnOk result (text.new.items ≡ text.old.items ++ flat_map search_line annotations.now) }
{
    for annotation in annotations {
        push_search(text, annotation)?;
    }
    Ok(())
}

// ---- the goal

fn direction(is_least: bool) -> &'static [u8]
    ensures { result.now ≡ direction is_least }
{
    if is_least { b"minimize" } else { b"maximize" }
}

fn push_goal_words(
    text: &mut Vec<u8>,
    constant: Option<ConstantGoal>,
    goal: Goal,
) -> Result<(), AllocError>
    ensures { OnOk result (text.new.items ≡ text.old.items ++ goal_words constant goal) }
{
    match (constant, goal) {
        (Some(constant), _) => {
            push_bytes(text, direction(constant.is_least))?;
            push_bytes(text, b" constant ")?;
            push_integer(text, constant.value)
        }
        (None, Goal::Satisfy) => push_bytes(text, b"satisfy"),
        (None, Goal::Minimize(var)) => {
            push_bytes(text, direction(true))?;
            push_variable(text, var)
        }
        (None, Goal::Maximize(var)) => {
            push_bytes(text, direction(false))?;
            push_variable(text, var)
        }
    }
}

/// The line of the goal, with the first of these items.
pub fn push_goal(
    text: &mut Vec<u8>,
    constant: Option<ConstantGoal>,
    goal: Goal,
    items: &[Span],
) -> Result<(), AllocError>
    ensures { OnOk result (text.new.items ≡ text.old.items ++ goal_line constant goal items.now) }
{
    let [item, ..] = items else {
        return Ok(());
    };
    push_bytes(text, b"goal ")?;
    push_goal_words(text, constant, goal)?;
    push_place(text, *item)?;
    push_bytes(text, b"\n")
}

// ---- mended places

fn push_part(text: &mut Vec<u8>, part: Part) -> Result<(), AllocError>
    ensures { OnOk result (text.new.items ≡ text.old.items ++ part_text part) }
{
    push_range(text, part.start, part.end)
}

fn change_word(change: Change) -> &'static [u8]
    ensures { result.now ≡ change_word change }
{
    match change {
        Change::Unbounded => b"unbounded ",
        Change::Sets => b"sets ",
    }
}

/// The bytes of the part. Where the file ends before the part does, those up to the end.
pub fn bytes_of(bytes: &[u8], part: Part) -> &[u8]
    ensures { result.now ≡ slice_range bytes.now part.start part.end }
{
    let end = bytes.len().min(part.end);
    let start = end.min(part.start);
    &bytes[start..end]
}

fn push_mended(text: &mut Vec<u8>, bytes: &[u8], place: &Place) -> Result<(), AllocError>
    ensures { OnOk result (text.new.items ≡ text.old.items ++ place_line bytes.now place.now) }
{
    push_bytes(text, change_word(place.change))?;
    push_bytes(text, bytes_of(bytes, place.name))?;
    push_part(text, place.at)?;
    push_bytes(text, b"\n")
}

/// The lines of these places of a file that has these bytes.
pub fn push_places(text: &mut Vec<u8>, bytes: &[u8], places: &[Place]) -> Result<(), AllocError>
    ensures { OnOk result (text.new.items ≡ text.old.items ++ flat_map (place_line bytes.now) places.now) }
{
    for place in places {
        push_mended(text, bytes, place)?;
    }
    Ok(())
}

/// The line of a goal that is a constant.
pub fn push_constant(text: &mut Vec<u8>, constant: Option<ConstantGoal>) -> Result<(), AllocError>
    ensures { OnOk result (text.new.items ≡ text.old.items ++ constant_line constant) }
{
    let Some(constant) = constant else {
        return Ok(());
    };
    push_bytes(text, b"constant ")?;
    push_integer(text, constant.value)?;
    push_part(text, constant.at)?;
    push_bytes(text, b"\n")
}

// ---- the counts

fn push_count(text: &mut Vec<u8>, word: &[u8], count: usize) -> Result<(), AllocError>
    ensures { OnOk result (text.new.items ≡ text.old.items ++ tally_text word.now count) }
{
    push_bytes(text, word)?;
    push_number(text, count)
}

/// The last line.
pub fn push_counts(text: &mut Vec<u8>, counts: &Counts) -> Result<(), AllocError>
    ensures { OnOk result (text.new.items ≡ text.old.items ++ counts_line counts.now) }
{
    push_count(text, b"end parameters ", counts.parameters)?;
    push_count(text, b" variables ", counts.variables)?;
    push_count(text, b" arrays ", counts.arrays)?;
    push_count(text, b" constraints ", counts.constraints)?;
    push_count(text, b" mended ", counts.mended)?;
    push_bytes(text, b"\n")
}
