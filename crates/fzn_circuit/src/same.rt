// Two successors that are the same: by the rule `hall`.
ghost use Rattle.std.specs.Prelude.{◌≡◌, ◌<◌, [], length, IsTrue, OnOk};
ghost use Rattle.fzn_values.specs.Term.{IsTerm};
ghost use Rattle.fzn_circuit.specs.Circuits.{HaveNoCommonValue, AreDifferent, HasOpenSuccessor, owner_of};
ghost use Rattle.fzn_circuit.specs.Passes.{AreFoundOfCircuit};

use crate::pass::Pass;
use fzn_domain::Memory;
use fzn_list::Items;
use fzn_propagator::Findings;
use fzn_rules::Rule;
use fzn_terms::{Claim, explain, force, greatest_of, is_fixed, least_of, may_be, next_value};
use fzn_trail::Trail;
use fzn_values::Term;

/// Finds for each successor that has one value since the last level began that no other has it.
pub(crate) fn find_same(pass: &Pass, found: &mut Findings) -> Result<(), Memory>
    requires before { AreFoundOfCircuit pass.now found.old }
    ensures found { AreFoundOfCircuit pass.now found.new }
    ensures none { OnOk result (found.new ≡ [] → AreDifferent pass.now.trail.now.sets pass.now.successors.now) }
{
    find_new(pass, found)?;
    if !found.is_empty() {
        return Ok(());
    }
    if has_open(pass) {
        return Ok(());
    }
    let owners = owners_of(pass)?;
    if are_owned(pass, &owners) {
        return Ok(());
    }
    find_any(pass, found) // Not reached: two places with one successor were found.
}

/// How many entries of the trail stood when its last level began: what these say has been told, since a level begins only where no
/// propagator finds anything.
fn told(trail: &Trail) -> usize {
    match trail.level().checked_sub(1) {
        Some(before) => trail.count_at(before),
        None => 0,
    }
}

/// Whether the term was narrowed behind so many entries.
fn is_new(trail: &Trail, term: Term, told: usize) -> bool
    requires term { IsTerm (length trail.now.declared) term }
{
    let last = match term {
        Term::Constant(_) => None,
        Term::Variable(var) => trail.last_of(var),
    };
    match last {
        Some(at) => told <= at,
        None => told == 0,
    }
}

/// The places, counted from 0, whose successors have one value each since the last level began.
fn fixed_of(pass: &Pass) -> Result<Vec<usize>, Memory> {
    let told = told(pass.trail);
    let mut fixed = Vec::new(pass.alloc);
    for k in 0..pass.successors.len() {
        let term = pass.successors[k];
        if is_fixed(pass.trail, term) && is_new(pass.trail, term, told) {
            fixed.push(k)?;
        }
    }
    Ok(fixed)
}

/// Up to how many places the successor of each is compared with all others.
const FEW: usize = 8;

/// Finds the same, but promises nothing where it finds nothing.
fn find_new(pass: &Pass, found: &mut Findings) -> Result<(), Memory>
    requires before { AreFoundOfCircuit pass.now found.old }
    ensures { AreFoundOfCircuit pass.now found.new }
{
    let fixed = fixed_of(pass)?;
    if FEW < fixed.len() {
        let owners = owners_of(pass)?;
        return find_owned(pass, &owners, found);
    }
    for k in 0..fixed.len() {
        find_like(pass, fixed[k], found)?;
    }
    Ok(())
}

/// Finds for each successor that it is not the same as the one at place i, where there is one and it may be.
fn find_like(pass: &Pass, i: usize, found: &mut Findings) -> Result<(), Memory>
    requires before { AreFoundOfCircuit pass.now found.old }
    ensures { AreFoundOfCircuit pass.now found.new }
{
    if i >= pass.successors.len() {
        return Ok(());
    }
    let value = least_of(pass.trail, pass.successors[i]);
    for j in 0..pass.successors.len() {
        if j != i && may_be(pass.trail, pass.successors[j], &value) {
            find_pair(pass, i, j, found)?;
        }
    }
    Ok(())
}

/// Finds that the successor at place j is not the one value of that at place i, where it has one.
fn find_pair(pass: &Pass, i: usize, j: usize, found: &mut Findings) -> Result<(), Memory>
    requires before { AreFoundOfCircuit pass.now found.old }
    ensures found { AreFoundOfCircuit pass.now found.new }
    ensures none { OnOk result (found.new ≡ [] → HaveNoCommonValue pass.now.trail.now.sets pass.now.successors.now i j) }
{
    if i >= pass.successors.len() || j >= pass.successors.len() || j == i {
        return Ok(());
    }
    let value = least_of(pass.trail, pass.successors[i]);
    if greatest_of(pass.trail, pass.successors[i]) != value {
        return Ok(());
    }
    let mut clause = Items::with_capacity(pass.alloc, 2)?;
    let one = Claim::equal(pass.successors[i], value);
    explain(pass.trail, one, &mut clause)?;
    let other = Claim::equal(pass.successors[j], value);
    if !force(pass.trail, other, &mut clause)? {
        return Ok(());
    }
    found.hand_over(pass.number, Rule::Hall(value, value), Some(clause))
}

/// Finds for each successor that it is not the one value of another, by places that have the values. About as many steps as all successors
/// have values.
fn find_owned(pass: &Pass, owners: &[usize], found: &mut Findings) -> Result<(), Memory>
    requires before { AreFoundOfCircuit pass.now found.old }
    ensures { AreFoundOfCircuit pass.now found.new }
{
    for j in 0..pass.successors.len() {
        find_owners(pass, owners, j, found)?;
    }
    Ok(())
}

/// Finds that the successor at place j has none of the values that other places have.
fn find_owners(pass: &Pass, owners: &[usize], j: usize, found: &mut Findings) -> Result<(), Memory>
    requires place { j < length pass.now.successors.now }
    requires before { AreFoundOfCircuit pass.now found.old }
    ensures { AreFoundOfCircuit pass.now found.new }
{
    let mut upto = 0;
    for _ in 0..owners.len() {
        let Some(value) = next_value(pass.trail, pass.successors[j], &upto) else {
            return Ok(());
        };
        let owner = owner_of(owners, &value);
        find_pair(pass, owner, j, found)?;
        upto = value;
    }
    Ok(())
}

/// A place, counted from 0, whose successor has each number, from 0, as its one value; `usize::MAX` where there is none.
fn owners_of(pass: &Pass) -> Result<Vec<usize>, Memory> {
    let mut owners = Vec::from_elem(
        pass.alloc,
        usize::MAX,
        pass.successors.len().saturating_add(1),
    )?;
    for k in 0..pass.successors.len() {
        let value = least_of(pass.trail, pass.successors[k]);
        if greatest_of(pass.trail, pass.successors[k]) == value {
            let at = usize::try_from(value).unwrap_or(0);
            if at < owners.len() {
                owners[at] = k;
            }
        }
    }
    Ok(owners)
}

fn owner_of(owners: &[usize], value: &i64) -> usize
    ensures { result ≡ owner_of owners.now value.now }
{
    if *value < 0 {
        return 0;
    }
    owners.get(*value as usize).copied().unwrap_or(0)
}

/// Whether each place is the one that has the least value of its successor.
fn are_owned(pass: &Pass, owners: &[usize]) -> bool
    ensures { IsTrue result → AreDifferent pass.now.trail.now.sets pass.now.successors.now }
{
    for k in 0..pass.successors.len() {
        let value = least_of(pass.trail, pass.successors[k]);
        if owner_of(owners, &value) != k {
            return false;
        }
    }
    true
}

/// Whether some successor has several values.
pub(crate) fn has_open(pass: &Pass) -> bool
    ensures { IsTrue result → HasOpenSuccessor pass.now.trail.now.sets pass.now.successors.now }
{
    for k in 0..pass.successors.len() {
        if !is_fixed(pass.trail, pass.successors[k]) {
            return true;
        }
    }
    false
}

/// Finds the first two successors, each compared with all others, that they are not the same.
fn find_any(pass: &Pass, found: &mut Findings) -> Result<(), Memory>
    requires before { AreFoundOfCircuit pass.now found.old }
    ensures found { AreFoundOfCircuit pass.now found.new }
    ensures none { OnOk result (found.new ≡ [] → AreDifferent pass.now.trail.now.sets pass.now.successors.now) }
{
    for i in 0..pass.successors.len() {
        for j in 0..pass.successors.len() {
            find_pair(pass, i, j, found)?;
            if !found.is_empty() {
                return Ok(());
            }
        }
    }
    Ok(())
}
