// What follows from the places that have one value: by the rule `hall` of that value.
ghost use Rattle.std.specs.Prelude.{◌<◌, length};
ghost use Rattle.fzn_globals.specs.DifferentPasses.{AreFoundOfDifferent};

use crate::all_different::pairs::{bar_like, bar_pair};
use crate::all_different::pass::Pass;
use crate::recent::{is_new, told};
use fzn_domain::Memory;
use fzn_propagator::Findings;
use fzn_terms::{greatest_of, has_other, least_of, may_be, next_value};

/// A place with one value. Which it is is open: each inference is tested by itself.
#[derive(Clone, Copy, Debug)]
struct Fixed {
    place: usize,
    value: i64,
}

/// Up to how many places with one value each is compared with all others.
const FEW: usize = 8;

/// Finds of each value that one place has that no other has it, in about n log n steps but for values that are not side by side. Only
/// places that have one value since the last level began are compared with others. Where two of many have the same one, no other place is
/// looked at.
pub(crate) fn bar_fixed(pass: &Pass, found: &mut Findings) -> Result<(), Memory>
    requires { AreFoundOfDifferent pass.now found.old }
    ensures { AreFoundOfDifferent pass.now found.new }
{
    let mut fixed = fixed_of(pass)?;
    if fixed.len() <= FEW {
        return bar_of_few(pass, fixed.as_slice(), found);
    }
    fixed.sort_by_key(|it| it.value)?;
    bar_twice(pass, fixed.as_slice(), found)?;
    if !found.is_empty() {
        return Ok(());
    }
    bar_open(pass, fixed.as_slice(), found)
}

/// The places that have one value since the last level began.
fn fixed_of(pass: &Pass) -> Result<Vec<Fixed>, Memory> {
    let told = told(pass.trail);
    let mut fixed = Vec::new(pass.alloc);
    for place in 0..pass.places.len() {
        let value = least_of(pass.trail, pass.places[place]);
        if greatest_of(pass.trail, pass.places[place]) == value
            && is_new(pass.trail, pass.places[place], told)
        {
            fixed.push(Fixed { place, value })?;
        }
    }
    Ok(fixed)
}

/// Finds of each value of one of these places that no other place has it.
fn bar_of_few(pass: &Pass, fixed: &[Fixed], found: &mut Findings) -> Result<(), Memory>
    requires { AreFoundOfDifferent pass.now found.old }
    ensures { AreFoundOfDifferent pass.now found.new }
{
    for k in 0..fixed.len() {
        let here = fixed[k];
        if here.place < pass.places.len() {
            bar_like(pass, here.place, found)?;
        }
    }
    Ok(())
}

/// Finds of each two of these places, side by side, that they have not the same value.
fn bar_twice(pass: &Pass, fixed: &[Fixed], found: &mut Findings) -> Result<(), Memory>
    requires { AreFoundOfDifferent pass.now found.old }
    ensures { AreFoundOfDifferent pass.now found.new }
{
    for k in 1..fixed.len() {
        let (before, here) = (fixed[k - 1], fixed[k]);
        if before.value == here.value {
            bar_from(pass, before.place, here.place, found)?;
        }
    }
    Ok(())
}

/// Finds of each value of one of these places that no other place, of those with several values, has it.
fn bar_open(pass: &Pass, fixed: &[Fixed], found: &mut Findings) -> Result<(), Memory>
    requires { AreFoundOfDifferent pass.now found.old }
    ensures { AreFoundOfDifferent pass.now found.new }
{
    for j in 0..pass.places.len() {
        let value = least_of(pass.trail, pass.places[j]);
        if has_other(pass.trail, pass.places[j], &value) {
            bar_common(pass, fixed, j, found)?;
        }
    }
    Ok(())
}

/// Finds of each value of these places that the place at j has not it. It goes over the place's values and theirs in turn, each time to the
/// next that is no less than the last of the other.
fn bar_common(pass: &Pass, fixed: &[Fixed], j: usize, found: &mut Findings) -> Result<(), Memory>
    requires place { j < length pass.now.places.now }
    requires before { AreFoundOfDifferent pass.now found.old }
    ensures { AreFoundOfDifferent pass.now found.new }
{
    let term = pass.places[j];
    let mut value = least_of(pass.trail, term);
    let mut from = 0;
    for _ in 0..fixed.len() {
        from = next_fixed(fixed, from, &value);
        if from >= fixed.len() {
            return Ok(());
        }
        let here = fixed[from];
        if may_be(pass.trail, term, &here.value) {
            bar_from(pass, here.place, j, found)?;
        }
        match next_value(pass.trail, term, &here.value) {
            Some(next) => value = next,
            None => return Ok(()),
        }
    }
    Ok(())
}

/// The first of these places from one on whose value is no less than this one.
fn next_fixed(fixed: &[Fixed], from: usize, value: &i64) -> usize {
    let mut low = from;
    let mut high = fixed.len();
    for _ in 0..64 {
        if low >= high {
            return low;
        }
        let middle = low + (high - low) / 2;
        if middle < fixed.len() && fixed[middle].value < *value {
            low = middle + 1;
        } else {
            high = middle;
        }
    }
    low
}

/// Finds that the place at j has not the value of the place at i.
fn bar_from(pass: &Pass, i: usize, j: usize, found: &mut Findings) -> Result<(), Memory>
    requires { AreFoundOfDifferent pass.now found.old }
    ensures { AreFoundOfDifferent pass.now found.new }
{
    if i >= pass.places.len() || j >= pass.places.len() || j == i {
        return Ok(());
    }
    let value = least_of(pass.trail, pass.places[i]);
    bar_pair(pass, i, j, &value, found)
}
