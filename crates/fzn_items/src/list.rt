// The text of a file's items.
ghost use Rattle.std.specs.Prelude.{◌≡◌, ◌+◌, ◌≤◌, ◌^◌, ◌++◌, length, OnOk, IfOk, Ok};
ghost use Rattle.std.specs.List.{All, flat_map};
ghost use Rattle.fzn_meaning.specs.WellFormed.{IsWellFormed};
ghost use Rattle.fzn_names.specs.Known.{known};
ghost use Rattle.fzn_names.specs.Limits.{IsVarWithin};
ghost use Rattle.fzn_reading.specs.Over.{IsAnnotationOver};
ghost use Rattle.fzn_typing.specs.Faults.{tree_names};
ghost use Rattle.fzn_typing.specs.Limits.{IsTreeWithin};
ghost use Rattle.fzn_typing.specs.Models.{written};
ghost use Rattle.fzn_typing.specs.Typed.{IsTyped};
ghost use Rattle.fzn_sources.specs.Items.{goal_items};
ghost use Rattle.fzn_items.specs.Listed.{IsList, constant_count, listed_counts, items_text, mended_text, statements_text};

use crate::counts::Counts;
use crate::declarations::{push_declarations, push_parameters};
use crate::ending::{push_constant, push_counts, push_goal, push_places, push_searches};
use crate::statements::{push_cons, push_stated};
use fzn_lexer::Span;
use fzn_meaning::Model;
use fzn_mending::{ConstantGoal, Place};
use fzn_names::Names;
use fzn_reading::annotations_of;
use fzn_sources::behind;
use fzn_strategy::Annotation;
use fzn_tree::Tree;
use fzn_typing::Named;
use std::alloc::{AllocError, Global};

/// The text of a file's items, and how many of each it has.
#[derive(Drop)]
pub struct Listing {
    /// The lines that are printed; the last of them gives the counts.
    pub text: Vec<u8>,
    /// How many of each the lines list.
    pub counts: Counts,
}

/// The items of the goal.
fn goal_items<'a>(tree: &Tree, items: &'a [Span]) -> &'a [Span]
    ensures { result.now ≡ goal_items tree.now items.now }
{
    let parameters = behind(items, tree.predicates.len());
    let declarations = behind(parameters, tree.params.len());
    let constraints = behind(declarations, tree.vars.len());
    behind(constraints, tree.cons.len())
}

/// The lines of declarations and constraints.
fn push_statements(
    alloc: Global,
    text: &mut Vec<u8>,
    names: &Names,
    tree: &Tree,
    items: &[Span],
) -> Result<(), AllocError>
    requires names { known names.now ≡ tree_names tree.now }
    requires within { All IsVarWithin tree.now.vars }
    requires few { 1 + length tree.now.cons + length (flat_map (written (tree_names tree.now)) tree.now.vars) ≤ 2 ^ 32 }
    ensures { OnOk result (text.new.items ≡ text.old.items ++ statements_text tree.now items.now) }
{
    let parameters = behind(items, tree.predicates.len());
    let declarations = behind(parameters, tree.params.len());
    let constraints = behind(declarations, tree.vars.len());
    push_parameters(text, tree.params.as_slice(), parameters)?;
    push_declarations(alloc, text, names, tree.vars.as_slice(), declarations)?;
    push_cons(text, names, 1, tree.cons.as_slice(), constraints)?;
    push_stated(
        text,
        names,
        1 + tree.cons.len(),
        tree.vars.as_slice(),
        declarations,
    )
}

/// The lines of what is mended.
fn push_mended(
    text: &mut Vec<u8>,
    bytes: &[u8],
    places: &[Place],
    constant: Option<ConstantGoal>,
) -> Result<(), AllocError>
    ensures { OnOk result (text.new.items ≡ text.old.items ++ mended_text bytes.now places.now constant) }
{
    push_places(text, bytes, places)?;
    push_constant(text, constant)
}

fn constant_count(constant: Option<ConstantGoal>) -> usize
    ensures count { result ≡ constant_count constant }
    ensures few { result ≤ 1 }
{
    match constant {
        None => 0,
        Some(_) => 1,
    }
}

fn counts_of(tree: &Tree, model: &Model, places: &[Place], constant: Option<ConstantGoal>) -> Counts
    ensures { result ≡ listed_counts tree.now model.now places.now constant }
{
    Counts {
        parameters: tree.params.len(),
        variables: model.vars.len(),
        arrays: tree.vars.len().saturating_sub(model.vars.len()),
        constraints: model.constraints.len(),
        mended: places.len() + constant_count(constant),
    }
}

/// The whole text.
fn text_of(
    alloc: Global,
    bytes: &[u8],
    tree: &Tree,
    items: &[Span],
    named: &Named,
    annotations: &[Annotation],
    places: &[Place],
    constant: Option<ConstantGoal>,
) -> Result<Vec<u8>, AllocError>
    requires names { known named.now.names ≡ tree_names tree.now }
    requires within { All IsVarWithin tree.now.vars }
    requires few { 1 + length tree.now.cons + length (flat_map (written (tree_names tree.now)) tree.now.vars) ≤ 2 ^ 32 }
    ensures { IfOk result (λ text. text.items ≡ items_text bytes.now tree.now items.now named.now.model annotations.now places.now constant) }
{
    let mut text = Vec::new(alloc);
    push_statements(alloc, &mut text, &named.names, tree, items)?;
    push_searches(&mut text, annotations)?;
    push_goal(
        &mut text,
        constant,
        named.model.goal,
        goal_items(tree, items),
    )?;
    push_mended(&mut text, bytes, places, constant)?;
    push_counts(&mut text, &counts_of(tree, &named.model, places, constant))?;
    Ok(text)
}

/// The text of the items of a file with these bytes, its tree and what it states, and of what is mended of it. It answers `Err` where
/// memory runs out.
pub fn listing_of(
    alloc: Global,
    bytes: &[u8],
    tree: &Tree,
    items: &[Span],
    named: &Named,
    places: &[Place],
    constant: Option<ConstantGoal>,
) -> Result<Listing, AllocError>
    requires names { known named.now.names ≡ tree_names tree.now }
    requires within { IsTreeWithin tree.now }
    requires typed { IsTyped tree.now (Ok named.now.model) }
    requires well_formed { IsWellFormed named.now.model }
    ensures { IfOk result (λ listing. IsList bytes.now tree.now items.now named.now.model places.now constant listing.text.items listing.counts) }
{
    let anns = tree.solve.anns.as_slice();
    let count = named.model.vars.len();
    let annotations = annotations_of(alloc, &named.names, count, anns)?;
    let listed = annotations.as_slice();
    let text = text_of(alloc, bytes, tree, items, named, listed, places, constant)?;
    let counts = counts_of(tree, &named.model, places, constant);
    Ok(Listing { text, counts })
}
