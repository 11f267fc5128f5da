// What follows for one of two lists from what is new of either. That nothing is left out no contract says: the last word is that of
// `find_by_inverse`, where all entries have one value.
ghost use Rattle.std.specs.Prelude.{◌<◌, length};
ghost use Rattle.fzn_globals.specs.InversePasses.{AreFoundOfInverse};

use crate::inverse::find_on_list;
use crate::inverse::pairs::find_pair;
use crate::inverse::pass::Pass;
use crate::recent::told;
use fzn_domain::{Domain, Memory, Op};
use fzn_propagator::Findings;
use fzn_sets::{is_index, term_at};
use fzn_terms::{greatest_of, has_other, is_fixed, least_of, may_be};
use fzn_values::Term;

/// An entry of the list and one of the other list, each by its index, from 1.
#[derive(Clone, Copy, Debug)]
struct Pair {
    i: i64,
    j: i64,
}

/// Finds what follows for each entry of the list from what the entries of the other one have lost since the last level began, and from its
/// value where it has one: in about as many steps as there are entries and lost values.
pub(crate) fn find_news(pass: &Pass, found: &mut Findings) -> Result<(), Memory>
    requires { AreFoundOfInverse pass.now found.old }
    ensures { AreFoundOfInverse pass.now found.new }
{
    let pass = *pass; // A copy of its own, whose parts stay at hand in the loops.
    let told = told(pass.trail);
    if told == 0 {
        return find_on_list(&pass, found);
    }
    let mut pairs = Vec::new(pass.alloc);
    for k in 0..pass.back.len() {
        push_lost(&pass, k, told, &mut pairs)?;
    }
    for k in 0..pass.there.len() {
        push_value(&pass, k, &mut pairs)?;
    }
    // No value of a term comes to 2^31, so by entries, and of one entry by values.
    pairs.sort_by_key(|it| it.i.saturating_mul(1 << 31).saturating_add(it.j))?;
    for n in 0..pairs.len() {
        find_once(&pass, pairs.as_slice(), n, found)?;
    }
    Ok(())
}

/// Finds what follows from the pair at this place of a list, where the one before it is another.
fn find_once(pass: &Pass, pairs: &[Pair], n: usize, found: &mut Findings) -> Result<(), Memory>
    requires place { n < length pairs.now }
    requires before { AreFoundOfInverse pass.now found.old }
    ensures { AreFoundOfInverse pass.now found.new }
{
    let pair = pairs[n];
    if n > 0 && pairs[n - 1].i == pair.i && pairs[n - 1].j == pair.j {
        return Ok(());
    }
    find_new(pass, pair, found)
}

/// Adds the value of the entry at place k, counted from 0, where it has one, unless the other list's entry there leads back.
fn push_value(pass: &Pass, k: usize, pairs: &mut Vec<Pair>) -> Result<(), Memory>
    requires { k < length pass.now.there.now }
{
    let i = k as i64 + 1;
    let j = least_of(pass.trail, pass.there[k]);
    if j < greatest_of(pass.trail, pass.there[k]) || leads_back(pass, &i, &j) {
        return Ok(());
    }
    pairs.push(Pair { i, j })?;
    Ok(())
}

/// Whether the other list has an entry at j whose only value is i.
fn leads_back(pass: &Pass, i: &i64, j: &i64) -> bool {
    is_index(pass.back.len(), j) && !has_other(pass.trail, term_at(pass.back, j), i)
}

/// Adds each entry that may have the index of the other list's entry at place k, counted from 0, while that one has lost its own since so
/// many entries of the trail stood.
fn push_lost(pass: &Pass, k: usize, told: usize, pairs: &mut Vec<Pair>) -> Result<(), Memory>
    requires { k < length pass.now.back.now }
{
    let Term::Variable(var) = pass.back[k] else {
        return Ok(());
    };
    let j = k as i64 + 1;
    let mut next = pass.trail.last_of(var);
    for _ in 0..pass.trail.len() {
        let Some(at) = next else {
            return Ok(());
        };
        if at < told || pass.trail.len() <= at {
            return Ok(());
        }
        push_taken(pass, at, j, pairs)?;
        next = pass.trail.before(at);
    }
    Ok(())
}

/// Adds each entry that may be j, and whose index the trail's entry at a place took out.
fn push_taken(pass: &Pass, at: usize, j: i64, pairs: &mut Vec<Pair>) -> Result<(), Memory>
    requires { at < length pass.now.trail.now.entries }
{
    let lit = pass.trail.entry(at).lit;
    let before = pass.trail.domain_before(at);
    match lit.op {
        Op::NotEqual => push_may_be(pass, lit.value, j, pairs),
        Op::AtMost => push_above(pass, before, lit.value, i64::MAX, j, pairs),
        Op::AtLeast => push_above(pass, before, i64::MIN, lit.value, j, pairs),
        Op::Equal => {
            push_above(pass, before, i64::MIN, lit.value, j, pairs)?;
            push_above(pass, before, lit.value, i64::MAX, j, pairs)
        }
    }
}

/// Adds each entry that may be j, and whose index the set has above one number and below another.
fn push_above(
    pass: &Pass,
    before: &Domain,
    above: i64,
    below: i64,
    j: i64,
    pairs: &mut Vec<Pair>,
) -> Result<(), Memory> {
    let mut last = above;
    for _ in 0..pass.there.len() {
        match before.above(last) {
            Some(value) if value < below => {
                push_may_be(pass, value, j, pairs)?;
                last = value;
            }
            _ => return Ok(()),
        }
    }
    Ok(())
}

/// Adds the entry at i, where there is one and it may be j.
fn push_may_be(pass: &Pass, i: i64, j: i64, pairs: &mut Vec<Pair>) -> Result<(), Memory> {
    if is_index(pass.there.len(), &i) && may_be(pass.trail, term_at(pass.there, &i), &j) {
        pairs.push(Pair { i, j })?;
    }
    Ok(())
}

/// Finds what follows from the entry at i, where it may be j, an index.
fn find_new(pass: &Pass, pair: Pair, found: &mut Findings) -> Result<(), Memory>
    requires { AreFoundOfInverse pass.now found.old }
    ensures { AreFoundOfInverse pass.now found.new }
{
    let count = pass.there.len();
    if !is_index(count, &pair.i) || !is_index(count, &pair.j) {
        return Ok(());
    }
    let entry = term_at(pass.there, &pair.i);
    if may_be(pass.trail, entry, &pair.j) {
        find_pair(pass, &pair.i, &pair.j, !is_fixed(pass.trail, entry), found)?;
    }
    Ok(())
}
