// Each kind of constraint, on choices of small sets: where no inference is left, what is left has support.
ghost use Rattle.std.specs.Prelude.{◌≡◌, ◌<◌, ◌≤◌, IsTrue, IfOk, IfSome, OnOk, length};
ghost use Rattle.fzn_domain.specs.Narrow.{NoneEmpty};
ghost use Rattle.fzn_meaning.specs.Solutions.{declared_sets};
ghost use Rattle.fzn_meaning.specs.WellFormed.{IsWellFormed};

use crate::models::{model_of, trail_of};
use fzn_domain::{Lit, Memory, Op, VarId};
use fzn_meaning::{Model, holds};
use fzn_propagator::Constraints;
use fzn_propagators::Propagators;
use fzn_trail::Trail;
use fzn_trail_tests::{is_filled, keep, next_random};
use std::alloc::{AllocError, Global};
use std::test::*;

/// A mark for each variable, declarations, a constraint; behind it what its strength is measured by, where that is not itself: each of
/// these constraints alone has to have support. `v`: each value has it in the sets. `h`: each value has it between the ends of the others,
/// and `e`: each end has. `l`: each value has, where each other variable has one value; `c`: besides, some value of a place leads out of any
/// set of places. `r`: each end has a product between the ends.
static ROWS: &str = "
eee var -4..5: a; var -3..6: b; var 0..4: c; | constraint int_lin_le([2,-3,1],[a,b,c],-4);
eee var -4..5: a; var -3..6: b; var 0..4: c; | constraint int_lin_eq([2,-3,1],[a,b,c],-4); | constraint int_lin_le([2,-3,1],[a,b,c],-4); constraint int_lin_le([-2,3,-1],[a,b,c],4);
vvv var -1..2: a; var 0..2: b; var 0..2: c; | constraint int_lin_ne([2,-3,1],[a,b,c],1);
eeee var -2..2: a; var 0..3: b; var 0..2: c; var bool: r; | constraint int_lin_le_reif([1,1,-1],[a,b,c],2,r);
eeee var -2..2: a; var 0..3: b; var 0..2: c; var bool: r; | constraint int_lin_eq_reif([1,1,-1],[a,b,c],3,r);
eeee var -2..2: a; var 0..3: b; var 0..2: c; var bool: r; | constraint int_lin_ne_reif([1,1,-1],[a,b,c],-3,r);
eeee var bool: a; var bool: b; var bool: c; var -2..4: d; | constraint bool_lin_eq([1,-1,1],[a,b,c],d);
vvv var bool: a; var bool: b; var bool: c; | constraint bool_lin_le([1,2,3],[a,b,c],3);
eee var -4..5: a; var -3..6: b; var 0..9: c; | constraint int_plus(a,b,c);
vv var 0..9: a; var -3..7: b; | constraint int_eq(a,b);
vv var {0,1,4,5,9}: a; var {1,2,5,8,9}: b; | constraint int_eq(a,b);
vv var 0..4: a; var 1..5: b; | constraint int_ne(a,b);
vv var 0..6: a; var -3..4: b; | constraint int_le(a,b);
vv var 0..6: a; var -3..4: b; | constraint int_lt(a,b);
vvv var 0..6: a; var 2..9: b; var bool: r; | constraint int_eq_reif(a,b,r);
vvv var {0,1,4,5,9}: a; var {1,2,5,8,9}: b; var bool: r; | constraint int_eq_reif(a,b,r);
vvv var 0..6: a; var 2..9: b; var bool: r; | constraint int_ne_reif(a,b,r);
vvv var 0..6: a; var 2..9: b; var bool: r; | constraint int_le_reif(a,b,r);
vvv var 0..6: a; var 2..9: b; var bool: r; | constraint int_lt_reif(a,b,r);
vv var bool: a; var bool: b; | constraint bool_eq(a,b);
vv var bool: a; var bool: b; | constraint bool_not(a,b);
vv var bool: a; var bool: b; | constraint bool_le(a,b);
vv var bool: a; var bool: b; | constraint bool_lt(a,b);
vvv var bool: a; var bool: b; var bool: r; | constraint bool_eq_reif(a,b,r);
vvv var bool: a; var bool: b; var bool: r; | constraint bool_le_reif(a,b,r);
vvv var bool: a; var bool: b; var bool: r; | constraint bool_lt_reif(a,b,r);
vv var bool: a; var -2..3: b; | constraint bool2int(a,b);
vvv var bool: a; var bool: b; var bool: r; | constraint bool_and(a,b,r);
vvv var bool: a; var bool: b; var bool: r; | constraint bool_or(a,b,r);
vvvv var bool: a; var bool: b; var bool: c; var bool: r; | constraint array_bool_and([a,b,c],r);
vvvv var bool: a; var bool: b; var bool: c; var bool: r; | constraint array_bool_or([a,b,c],r);
vvvv var bool: a; var bool: b; var bool: c; var bool: d; | constraint bool_clause([a,b],[c,d]);
rrr var -4..4: a; var -3..5: b; var -9..9: c; | constraint int_times(a,b,c);
rrr var 2..5: a; var -3..3: b; var {-8,-6,3,7}: c; | constraint int_times(a,b,c);
eeh var -7..9: a; var -3..3: b; var -9..9: c; | constraint int_div(a,b,c);
eeh var -7..9: a; var -3..4: b; var -4..4: c; | constraint int_mod(a,b,c);
vv var -5..4: a; var -2..6: b; | constraint int_abs(a,b);
v var 0..9: a; | constraint set_in(a,{1,2,3,6,8});
v var 0..9: a; | constraint set_in(a,2..6);
vv var 0..9: a; var bool: r; | constraint set_in_reif(a,{1,3,4,8},r);
vv var 0..9: a; var bool: r; | constraint set_in_reif(a,3..5,r);
vvv var bool: a; var bool: b; var bool: r; | constraint bool_xor(a,b,r);
vvvv var bool: a; var bool: b; var bool: c; var bool: d; | constraint array_bool_xor([a,b,c,d]);
eee var 0..5: a; var 1..6: b; var 0..7: c; | constraint int_min(a,b,c);
eee var 0..5: a; var 1..6: b; var 0..7: c; | constraint int_max(a,b,c);
eeee var 0..5: m; var 0..4: a; var 1..5: b; var 0..6: c; | constraint array_int_maximum(m,[a,b,c]);
eeee var 0..5: m; var 0..4: a; var 1..5: b; var 0..6: c; | constraint array_int_minimum(m,[a,b,c]);
vv var 0..5: i; var 0..9: c; | constraint array_int_element(i,[5,2,5,7],c);
vv var 0..3: i; var bool: c; | constraint array_bool_element(i,[false,true],c);
vvvv var 0..4: i; var 0..4: a; var 2..6: b; var 0..7: c; | constraint array_var_int_element(i,[a,b,3],c);
vvvv var 0..4: i; var bool: a; var bool: b; var bool: c; | constraint array_var_bool_element(i,[a,b,true],c);
eeee var 0..4: a; var 1..3: b; var 1..4: c; var 0..5: d; | constraint fzn_all_different_int([a,b,c,d]);
vvv var 0..4: a; var 0..4: b; var 0..4: c; | constraint fzn_table_int([a,b,c],[0,1,2,1,1,3,4,2,0,2,2,2,3,0,4,1,4,3]);
eeeeee var 0..4: a; var 1..3: b; var 1..4: c; var 1..3: d; var 0..3: e; var 1..4: f; | constraint fzn_inverse([a,b,c],[d,e,f]); | constraint fzn_all_different_int([a,b,c]); constraint fzn_all_different_int([d,e,f]);
llllll var 0..4: a; var 1..3: b; var 1..4: c; var 1..3: d; var 0..3: e; var 1..4: f; | constraint fzn_inverse([a,b,c],[d,e,f]);
llll var 0..5: a; var 1..4: b; var 0..3: c; var 2..4: m; | constraint fzn_cumulative([a,b,c],[2,3,2],[1,2,2],m);
cccc var 1..4: a; var 0..4: b; var 1..5: c; var 1..4: d; | constraint fzn_circuit([a,b,c,d]);
ccccc var 1..5: a; var 1..5: b; var 1..5: c; var 1..5: d; var 1..5: e; | constraint fzn_circuit([a,b,c,d,e]);
";

/// Declarations and a table of three rows; behind them how many values are left of the first variable. Each value has support where the
/// variable is declared over at most 4,096 numbers; else each end has.
static SPANS: &str = "
var 0..100: a; var 0..1: b; | constraint fzn_table_int([a,b],[10,0,50,1,90,0]); | 3
var -2000..2095: a; var 0..1: b; | constraint fzn_table_int([a,b],[-1990,0,50,1,2090,0]); | 3
var {0,7,4000,4095}: a; var 0..1: b; | constraint fzn_table_int([a,b],[7,0,4000,1,9,0]); | 2
var 0..4096: a; var 0..1: b; | constraint fzn_table_int([a,b],[10,0,50,1,4090,0]); | 4081
";

/// So many inferences lead to a fixpoint at the most.
const STEPS: usize = 5_000;

/// All values of so many are chosen one by one.
const BITS: usize = 9;

/// So many choices of small sets for each row, and so many more at random.
const SMALL: u64 = 512;

const RANDOM: u64 = 60;

/// Keeps of a few values in the middle of each set those whose bits are set, one set after the other.
fn choose(trail: &mut Trail, count: usize, bits: u64) -> Result<(), Memory>
    requires { count ≡ length trail.old.declared }
    ensures { OnOk result (trail.new.declared ≡ trail.old.declared) }
{
    let few = BITS.checked_div(count).unwrap_or(0);
    let mut left = bits;
    for k in 0..count {
        left = choose_one(trail, VarId(k + 1), left, few)?;
    }
    Ok(())
}

fn choose_one(trail: &mut Trail, var: VarId, bits: u64, few: usize) -> Result<u64, Memory>
    requires { (1 ≤ var.0) × (var.0 ≤ length trail.old.declared) }
    ensures { OnOk result (trail.new.declared ≡ trail.old.declared) }
{
    let first = trail.declared(var).len().saturating_sub(few) / 2;
    let mut left = bits;
    let mut place: usize = 0;
    for offset in 0..21_usize {
        let value = offset as i64 - 10;
        if trail.declared(var).contains(value) {
            let is_one = first <= place && place - first < few;
            if !is_one || left % 2 == 0 {
                keep(trail, var, Op::NotEqual, value)?;
            }
            if is_one {
                left /= 2;
            }
            place = place.saturating_add(1);
        }
    }
    Ok(left)
}

/// Takes each value away, with a chance of two, three or four in six.
fn thin_out(trail: &mut Trail, count: usize, seed: u64) -> Result<(), Memory>
    requires { count ≡ length trail.old.declared }
    ensures { OnOk result (trail.new.declared ≡ trail.old.declared) }
{
    let mut number = seed;
    for k in 0..count {
        number = thin_out_one(trail, VarId(k + 1), number, 2 + seed % 3)?;
    }
    Ok(())
}

fn thin_out_one(trail: &mut Trail, var: VarId, seed: u64, gone: u64) -> Result<u64, Memory>
    requires { (1 ≤ var.0) × (var.0 ≤ length trail.old.declared) }
    ensures { OnOk result (trail.new.declared ≡ trail.old.declared) }
{
    let mut number = seed;
    for offset in 0..21_usize {
        number = next_random(number);
        if (number >> 40) % 6 < gone {
            keep(trail, var, Op::NotEqual, offset as i64 - 10)?;
        }
    }
    Ok(number)
}

/// The sets of this choice.
fn choose_sets(trail: &mut Trail, count: usize, choice: u64) -> Result<(), Memory>
    requires { count ≡ length trail.old.declared }
    ensures { OnOk result (trail.new.declared ≡ trail.old.declared) }
{
    if choice < SMALL {
        choose(trail, count, choice)
    } else {
        thin_out(trail, count, choice)
    }
}

/// What became of a trail.
enum Progress {
    /// It was narrowed.
    Narrowed,
    /// Nothing is inferred.
    AtFixpoint,
    /// A set is empty, or a clause is false.
    Failed,
}

/// Makes what is inferred true on the trail.
fn advance<C: Constraints>(
    alloc: Global,
    model: &Model,
    constraints: &mut C,
    trail: &mut Trail,
) -> Result<Progress, Memory>
    requires is_for { C.is_for constraints.old model.now }
    requires declared { trail.old.declared ≡ declared_sets model.now.vars }
    ensures is_for { C.is_for constraints.new model.now }
    ensures declared { OnOk result (trail.new.declared ≡ trail.old.declared) }
{
    let count = model.vars.len();
    if !is_filled(trail, count) {
        return Ok(Progress::Failed);
    }
    let Some(found) = constraints.infer(alloc, model, trail)? else {
        return Ok(Progress::AtFixpoint);
    };
    let Some(lit) = open_literal(trail, count, found.clause.as_slice()) else {
        return Ok(Progress::Failed);
    };
    keep(trail, lit.var, lit.op, lit.value)?;
    Ok(Progress::Narrowed)
}

/// Makes each inference true on the trail, and says whether none is left and each set has a value.
fn narrow<C: Constraints>(
    alloc: Global,
    model: &Model,
    constraints: &mut C,
    trail: &mut Trail,
) -> Result<bool, Memory>
    requires is_for { C.is_for constraints.old model.now }
    requires declared { trail.old.declared ≡ declared_sets model.now.vars }
    ensures is_for { C.is_for constraints.new model.now }
    ensures declared { OnOk result (trail.new.declared ≡ trail.old.declared) }
{
    for _ in 0..STEPS {
        match advance(alloc, model, constraints, trail)? {
            Progress::Narrowed => {}
            Progress::AtFixpoint => return Ok(true),
            Progress::Failed => return Ok(false),
        }
    }
    Ok(false)
}

/// The literal of the clause that is not false.
fn open_literal(trail: &Trail, count: usize, clause: &[Lit]) -> Option<Lit>
    requires { count ≡ length trail.now.declared }
    ensures { IfSome result (λ lit. (1 ≤ lit.var.0) × (lit.var.0 ≤ length trail.now.declared)) }
{
    for lit in clause {
        if 0 < lit.var.0 && lit.var.0 <= count && !trail.domain(lit.var).is_false(*lit) {
            return Some(*lit);
        }
    }
    None
}

// ---- support

/// From the least up to the greatest value of each variable.
fn ends(alloc: Global, trail: &Trail, count: usize) -> Result<Vec<(i64, i64)>, AllocError>
    requires { count ≡ length trail.now.declared }
    ensures { IfOk result (λ ends. length ends.items ≡ count) }
{
    let mut ends = Vec::new(alloc);
    for k in 0..count {
        let set = trail.domain(VarId(k + 1));
        ends.push((
            set.above(i64::MIN).unwrap_or(0),
            set.below(i64::MAX).unwrap_or(0),
        ))?;
    }
    Ok(ends)
}

/// Goes on to the next values between the ends, the last variable's first, and says whether there are any.
fn next_values(ends: &[(i64, i64)], values: &mut [i64]) -> bool {
    for ((low, high), value) in ends.iter().zip(values).rev() {
        if *value < *high {
            *value += 1;
            return true;
        }
        *value = *low;
    }
    false
}

/// Whether each of the values is in its variable's set.
fn is_among(trail: &Trail, count: usize, values: &[i64]) -> bool
    requires { count ≡ length trail.now.declared }
{
    for (k, value) in values.iter().enumerate() {
        if k >= count || !trail.domain(VarId(k + 1)).contains(*value) {
            return false;
        }
    }
    true
}

/// Whether the constraint of this index holds of the values.
fn is_met(model: &Model, index: usize, values: &[i64]) -> bool
    requires { IsWellFormed model.now }
{
    if values.len() != model.vars.len() || index >= model.constraints.len() {
        return false;
    }
    holds(&model.constraints.as_slice()[index], values)
}

/// Whether some values between the ends meet the constraint of this index, in the sets where that is asked for.
fn has_support(
    alloc: Global,
    model: &Model,
    index: usize,
    trail: &Trail,
    ends: &[(i64, i64)],
    in_sets: bool,
) -> Result<bool, AllocError>
    requires well_formed { IsWellFormed model.now }
    requires count { length ends.now ≡ length trail.now.declared }
{
    let count = ends.len();
    let mut values = Vec::new(alloc);
    for (low, _) in ends {
        values.push(*low)?;
    }
    for _ in 0..100_000 {
        if is_met(model, index, &values) && (!in_sets || is_among(trail, count, &values)) {
            return Ok(true);
        }
        if !next_values(ends, &mut values) {
            return Ok(false);
        }
    }
    Ok(false)
}

/// Whether each constraint has some, alone.
fn each_has_support(
    alloc: Global,
    model: &Model,
    trail: &Trail,
    ends: &[(i64, i64)],
    in_sets: bool,
) -> Result<bool, AllocError>
    requires well_formed { IsWellFormed model.now }
    requires count { length ends.now ≡ length trail.now.declared }
{
    for index in 0..model.constraints.len() {
        if !has_support(alloc, model, index, trail, ends, in_sets)? {
            return Ok(false);
        }
    }
    Ok(true)
}

/// Whether the products of numbers between the first two ends reach the third.
fn has_product(ends: &[(i64, i64)]) -> bool {
    if ends.len() != 3 {
        return false;
    }
    let ((a, b), (c, d), (low, high)) = (ends[0], ends[1], ends[2]);
    let products = [
        a.saturating_mul(c),
        a.saturating_mul(d),
        b.saturating_mul(c),
        b.saturating_mul(d),
    ];
    products.iter().any(|product| *product <= high)
        && products.iter().any(|product| low <= *product)
}

/// Whether each variable but the one at the place has one value.
fn is_last(ends: &[(i64, i64)], place: usize) -> bool {
    for (k, (low, high)) in ends.iter().enumerate() {
        if k != place && low != high {
            return false;
        }
    }
    true
}

/// Whether the mark asks for support of the value at the place.
fn is_asked(ends: &[(i64, i64)], place: usize, value: i64, mark: char) -> bool
    requires { place < length ends.now }
{
    let (low, high) = ends[place];
    match mark {
        'e' | 'r' => value == low || value == high,
        'l' | 'c' => is_last(ends, place),
        _ => true,
    }
}

/// Whether the value of the variable at the place has the support that the mark asks for.
fn is_supported(
    alloc: Global,
    model: &Model,
    trail: &Trail,
    count: usize,
    place: usize,
    value: i64,
    mark: char,
) -> Result<bool, AllocError>
    requires well_formed { IsWellFormed model.now }
    requires count { count ≡ length trail.now.declared }
{
    let mut ends = ends(alloc, trail, count)?;
    if place >= ends.len() || !is_asked(&ends, place, value, mark) {
        return Ok(true);
    }
    ends[place] = (value, value);
    if mark == 'r' {
        return Ok(has_product(&ends));
    }
    each_has_support(alloc, model, trail, &ends, mark == 'v')
}

/// Whether each value that is left of the variable at the place has the support that the mark asks for.
fn is_each_supported(
    alloc: Global,
    model: &Model,
    trail: &Trail,
    count: usize,
    place: usize,
    mark: char,
) -> Result<bool, AllocError>
    requires well_formed { IsWellFormed model.now }
    requires count { count ≡ length trail.now.declared }
    requires place { place < count }
{
    for value in -10..11 {
        if trail.domain(VarId(place + 1)).contains(value)
            && !is_supported(alloc, model, trail, count, place, value, mark)?
        {
            return Ok(false);
        }
    }
    Ok(true)
}

/// Whether some value of one of these places, whose bits are set, leads out of them.
fn leads_out(trail: &Trail, count: usize, places: u32) -> bool
    requires { count ≡ length trail.now.declared }
{
    for place in 0..count {
        for other in 0..5_usize {
            if is_set(places, place)
                && !is_set(places, other)
                && trail.domain(VarId(place + 1)).contains(other as i64 + 1)
            {
                return true;
            }
        }
    }
    false
}

fn is_set(bits: u32, place: usize) -> bool {
    place < 32 && bits & (1 << place) != 0
}

/// Whether some value leads out of any set of places.
fn is_connected(trail: &Trail, count: usize) -> bool
    requires { count ≡ length trail.now.declared }
{
    let all: u32 = match count {
        4 => 15,
        5 => 31,
        _ => 1,
    };
    for places in 1..all {
        if !leads_out(trail, count, places) {
            return false;
        }
    }
    true
}

/// Whether all that is left of each variable has the support that its mark asks for.
fn is_narrow(
    alloc: Global,
    model: &Model,
    trail: &Trail,
    count: usize,
    marks: &str,
) -> Result<bool, AllocError>
    requires well_formed { IsWellFormed model.now }
    requires count { count ≡ length trail.now.declared }
{
    for (place, mark) in marks.chars().enumerate() {
        if place < count && !is_each_supported(alloc, model, trail, count, place, mark)? {
            return Ok(false);
        }
    }
    Ok(!marks.starts_with('c') || is_connected(trail, count))
}

/// What is left of this choice of sets, and nothing where a set is empty.
fn left_of(alloc: Global, model: &Model, choice: u64) -> Result<Option<Trail>, Memory>
    requires { IsWellFormed model.now }
    ensures { IfOk result (λ found. IfSome found (λ trail. trail.declared ≡ declared_sets model.now.vars)) }
{
    let mut propagators: Propagators = Propagators::new(alloc, model)?;
    let mut trail = trail_of(alloc, model)?;
    if !narrow(alloc, model, &mut propagators, &mut trail)? {
        return Ok(None);
    }
    choose_sets(&mut trail, model.vars.len(), choice)?;
    if !narrow(alloc, model, &mut propagators, &mut trail)? {
        return Ok(None);
    }
    Ok(Some(trail))
}

/// Whether what is left of this choice of sets is as the marks say, by the second model; nothing where a set is empty.
fn is_narrow_from(
    alloc: Global,
    model: &Model,
    measure: &Model,
    marks: &str,
    choice: u64,
) -> Result<Option<bool>, Memory>
    requires model { IsWellFormed model.now }
    requires measure { IsWellFormed measure.now }
{
    let Some(trail) = left_of(alloc, model, choice)? else {
        return Ok(None);
    };
    let narrow = is_narrow(alloc, measure, &trail, model.vars.len(), marks)?;
    Ok(Some(narrow))
}

/// The first choice of sets that leaves what has no support, and the last where none leaves each set a value.
fn weak_choice(
    alloc: Global,
    model: &Model,
    measure: &Model,
    marks: &str,
) -> Result<Option<u64>, Memory>
    requires model { IsWellFormed model.now }
    requires measure { IsWellFormed measure.now }
{
    let mut is_judged = false;
    for choice in 0..SMALL + RANDOM {
        match is_narrow_from(alloc, model, measure, marks, choice)? {
            Some(false) => return Ok(Some(choice)),
            Some(true) => is_judged = true,
            None => {}
        }
    }
    Ok(if is_judged {
        None
    } else {
        Some(SMALL + RANDOM)
    })
}

fn model_with(alloc: Global, declarations: &str, constraints: &str) -> Result<Model, Fail>
    ensures { IfOk result IsWellFormed }
{
    let text = format!(in alloc; "{declarations} {constraints} solve satisfy;")?;
    model_of(alloc, text.as_str())
}

/// The choice at which the row is weak.
fn weak_choice_of(alloc: Global, row: &str) -> Result<Option<u64>, Fail> {
    let (marks, file) = row.split_once(' ').unwrap_or((row, ""));
    let (declarations, texts) = file.split_once('|').unwrap_or((file, ""));
    let (constraint, measures) = texts.split_once('|').unwrap_or((texts, texts));
    let model = model_with(alloc, declarations, constraint)?;
    let measure = model_with(alloc, declarations, measures)?;
    Ok(weak_choice(alloc, &model, &measure, marks)?)
}

#[test]
fn what_is_left_has_support(rt: HostRuntime) -> Result<(), Fail> {
    for row in ROWS.trim().lines() {
        let choice = weak_choice_of(rt.alloc(), row)?;
        assert!(rt; choice.is_none(), "{row}, choice {choice:?}");
    }
    Ok(())
}

/// How many values the first variable has.
fn first_len(trail: &Trail, count: usize) -> usize
    requires { count ≡ length trail.now.declared }
{
    if count == 0 {
        return 0;
    }
    trail.domain(VarId(1)).len()
}

/// How many values of the first variable are left where nothing is inferred.
fn values_left(alloc: Global, model: &Model) -> Result<usize, Memory>
    requires { IsWellFormed model.now }
{
    let mut propagators: Propagators = Propagators::new(alloc, model)?;
    let mut trail = trail_of(alloc, model)?;
    if !narrow(alloc, model, &mut propagators, &mut trail)? {
        return Ok(0);
    }
    Ok(first_len(&trail, model.vars.len()))
}

/// What is left of the row's first variable, and how many values are wanted.
fn left_and_wanted(alloc: Global, row: &str) -> Result<(usize, usize), Fail> {
    let (declarations, rest) = row.split_once('|').unwrap_or((row, ""));
    let (constraint, wanted) = rest.split_once('|').unwrap_or((rest, ""));
    let model = model_with(alloc, declarations, constraint)?;
    let left = values_left(alloc, &model)?;
    Ok((left, wanted.trim().parse().unwrap_or(0)))
}

#[test]
fn what_is_left_of_tables(rt: HostRuntime) -> Result<(), Fail> {
    for row in SPANS.trim().lines() {
        let (left, wanted) = left_and_wanted(rt.alloc(), row)?;
        assert_eq!(rt; left, wanted, "{row}");
    }
    Ok(())
}
