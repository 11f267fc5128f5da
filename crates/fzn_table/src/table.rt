// What follows from the rows of a table: by the rule `rows`.
ghost use Rattle.std.specs.Prelude.{◌≡◌, ◌≢◌, ◌↔◌, ℕ, ◌/◌, ◌<◌, ◌≤◌, ◌-ℤ◌, ◌<ℤ◌, false, true, ℤ, [], IsTrue, MatchBool, IfOk, IfSome, IfNone, OnOk, length};
ghost use Rattle.fzn_domain.specs.IntSet.{least, greatest};
ghost use Rattle.fzn_domain.specs.Limits.{IsInLimits, IsNearLimits};
ghost use Rattle.fzn_domain.specs.Literal.{compares};
ghost use Rattle.fzn_values.specs.Term.{IsTerm, numbers_in};
ghost use Rattle.fzn_sets.specs.Terms.{MayBe};
ghost use Rattle.fzn_propagator.specs.Left.{IsLeft};
ghost use Rattle.fzn_propagator.specs.Clause.{IsFalseClause};
ghost use Rattle.fzn_terms.specs.Values.{place_at};
ghost use Rattle.fzn_terms.specs.Denied.{IsEntailed, IsGrown};
ghost use Rattle.fzn_terms.specs.Intervals.{IsLimitedInterval, ends_of};
ghost use Rattle.fzn_table.specs.Supports.{IsOutAt, IsDeclaredNarrow, IsClosePlace, MayStand, HasSupports, AreSupported, IsBarred};
ghost use Rattle.fzn_table.specs.Passes.{MayHave, IsRowOfTable, number_in_row, IsOpenRow, AreOpenRows, IsOutOn, HasSupport, IsClaimSupported, IsSaidAt, IsRowSaid, IsJustifiedByTable, AreFoundOfTable};

use crate::pass::Pass;
use crate::said::{MOST_SAID, Said};
use fzn_domain::{Domain, GREATEST_BOUND, LEAST_BOUND, Lit, Memory, Op, VarId};
use fzn_list::Items;
use fzn_propagator::Findings;
use fzn_rules::Rule;
use fzn_terms::{
    Claim, Interval, MOST_VALUES, explain, force, interval_of, is_narrow, least_of, may_be,
    next_value,
};
use fzn_trail::Trail;
use fzn_values::Term;

/// Whether some literal of the clause is true where the variable has this value.
fn is_barred(clause: &Items<Lit>, var: VarId, value: &i64) -> bool
    ensures { IsTrue result → IsBarred clause.now var value.now }
{
    for lit in clause.as_slice() {
        if lit.var == var && lit.is_true_at(*value) {
            return true;
        }
    }
    false
}

/// Whether the clause need not be longer to say that the term has not this value.
fn is_said(trail: &Trail, term: Term, value: &i64, clause: &Items<Lit>) -> bool
    requires { IsTerm (length trail.now.declared) term }
    ensures { IsTrue result → (MayBe trail.now.sets term value.now → ⊥) → IsLeft trail.now.declared clause.now term value.now → ⊥ }
{
    match term {
        Term::Constant(_) => true,
        Term::Variable(var) => {
            !trail.declared(var).contains(*value) || is_barred(clause, var, value)
        }
    }
}

/// The number at the place, of those of all rows, that is the nearest to an end of the place beyond which this one lies.
fn nearest(pass: &Pass, k: usize, op: Op, value: &i64, end: &i64) -> i64
    requires in_range { k < length pass.now.places.now }
    requires itself { compares op value.now value.now ≡ true }
    requires beyond { compares op end.now value.now ≡ false }
    ensures holds { compares op value.now result ≡ true }
    ensures fails { compares op end.now result ≡ false }
{
    match pass.supports.nearest_beyond(k, op, *end) {
        Some(number) if op.compares(*value, number) && !op.compares(*end, number) => number,
        _ => *value,
    }
}

/// Whether the set spans no more numbers, from its least to its greatest value, than are looked at one by one.
fn is_short(set: &Domain) -> bool
    ensures { IsTrue result ↔ ((greatest set.now -ℤ least set.now) <ℤ MOST_VALUES) }
{
    set.is_empty() || set.max() - set.min() < MOST_VALUES
}

/// Whether the declared set of the term does.
fn is_declared_narrow(trail: &Trail, term: Term) -> bool
    requires { IsTerm (length trail.now.declared) term }
    ensures { IsTrue result ↔ IsDeclaredNarrow trail.now.declared term }
{
    match term {
        Term::Constant(_) => true,
        Term::Variable(var) => is_short(trail.declared(var)),
    }
}

/// Whether the place, which has these ends, has few values, or values that lie close together beside the number of rows.
fn is_close_place(pass: &Pass, p: usize, ends: Interval) -> bool
    requires in_range { p < length pass.now.places.now }
    requires ends { ends ≡ ends_of pass.now.trail.now.sets (place_at pass.now.places.now p) }
    requires limited { IsLimitedInterval ends }
    ensures { IsTrue result ↔ IsClosePlace pass.now.trail.now.sets pass.now.places.now (numbers_in pass.now.rows.now) p }
{
    is_narrow(pass.trail, pass.places[p], ends, pass.count())
}

/// A claim that is true of each value that the place has, and not of this value: the one value that is left; else a bound, where the value
/// lies beyond the ends of a place whose values are many and far apart.
fn claim_out(pass: &Pass, k: usize, value: &i64) -> Claim
    requires in_range { k < length pass.now.places.now }
    requires number { IsInLimits value.now }
    requires out { MayHave pass.now k value.now → ⊥ }
    ensures term { result.term ≡ place_at pass.now.places.now k }
    ensures present { IsEntailed pass.now.trail.now.sets result }
    ensures fails { compares result.op value.now result.number ≡ false }
    ensures near { IsNearLimits result.number }
{
    let term = pass.places[k];
    let ends = interval_of(pass.trail, term);
    if ends.low == ends.high {
        return Claim {
            term,
            op: Op::Equal,
            number: ends.low,
        };
    }
    if !is_close_place(pass, k, ends) {
        if *value < ends.low {
            let nearest = nearest(pass, k, Op::AtMost, value, &ends.low);
            return Claim {
                term,
                op: Op::AtLeast,
                number: nearest + 1,
            };
        }
        if ends.high < *value {
            let nearest = nearest(pass, k, Op::AtLeast, value, &ends.high);
            return Claim {
                term,
                op: Op::AtMost,
                number: nearest - 1,
            };
        }
    }
    Claim {
        term,
        op: Op::NotEqual,
        number: *value,
    }
}

/// Makes room for a literal of each place where the clause has none yet.
fn make_room(pass: &Pass, clause: &mut Items<Lit>) -> Result<(), Memory>
    ensures { OnOk result (clause.new ≡ clause.old) }
{
    if clause.as_slice().is_empty() {
        *clause = Items::with_capacity(pass.alloc, pass.places.len())?;
    }
    Ok(())
}

/// Adds to a false clause what it takes to say that the place has not this value, which it has not on the trail.
fn explain_out(pass: &Pass, k: usize, value: &i64, clause: &mut Items<Lit>) -> Result<(), Memory>
    requires in_range { k < length pass.now.places.now }
    requires number { IsInLimits value.now }
    requires out { MayHave pass.now k value.now → ⊥ }
    requires still { IsFalseClause pass.now.trail.now clause.old }
    ensures { OnOk result (IsGrown pass.now.trail.now (λ sets. MayBe sets (place_at pass.now.places.now k) value.now → ⊥) clause.old clause.new) }
{
    if is_said(pass.trail, pass.places[k], value, clause) {
        return Ok(());
    }
    let claim = claim_out(pass, k, value);
    make_room(pass, clause)?;
    explain(pass.trail, claim, clause)?;
    Ok(())
}

/// Whether the literal of this index, where the clause has one, says that the place, where there is one, has not the row's value.
fn is_said_by(pass: &Pass, r: usize, k: usize, clause: &Items<Lit>, i: usize) -> bool
    requires whole { IsRowOfTable pass.now r }
    ensures { IsTrue result → IsSaidAt pass.now clause.now r k }
{
    let Some(lit) = clause.as_slice().get(i) else {
        return false;
    };
    if k >= pass.places.len() {
        return false;
    }
    match pass.places[k] {
        Term::Constant(_) => false,
        Term::Variable(var) => lit.var == var && lit.is_true_at(pass.number_at(r, k)),
    }
}

/// Whether some literal of the clause says that the row is out, as far as it is known of which place each speaks.
fn is_row_said(pass: &Pass, r: usize, said: &mut Said, clause: &Items<Lit>) -> bool
    requires whole { IsRowOfTable pass.now r }
    ensures { IsTrue result → IsRowSaid pass.now clause.now r }
{
    if is_said_by(pass, r, said.place_of(said.last), clause, said.last) {
        return true;
    }
    for i in 0..clause.len().min(MOST_SAID) {
        if is_said_by(pass, r, said.place_of(i), clause, i) {
            said.last = i;
            return true;
        }
    }
    false
}

/// A place that the row's value there is out of: one of which the clause says so, where there is one, else the first.
fn place_out(pass: &Pass, r: usize, clause: &Items<Lit>) -> Option<usize>
    requires whole { IsRowOfTable pass.now r }
    ensures found { IfSome result (IsOutAt pass.now.trail.now.sets pass.now.places.now (numbers_in pass.now.rows.now) r) }
    ensures none { IfNone result (IsOpenRow pass.now r) }
{
    let mut found = None;
    for k in 0..pass.places.len() {
        let value = pass.number_at(r, k);
        if !may_be(pass.trail, pass.places[k], &value) {
            if is_said(pass.trail, pass.places[k], &value, clause) {
                return Some(k);
            }
            if found.is_none() {
                found = Some(k);
            }
        }
    }
    found
}

/// Adds to a false clause what it takes to say that the place has not the row's value, which it has not on the trail.
fn explain_place(
    pass: &Pass,
    r: usize,
    k: usize,
    said: &mut Said,
    clause: &mut Items<Lit>,
) -> Result<(), Memory>
    requires whole { IsRowOfTable pass.now r }
    requires out { IsOutAt pass.now.trail.now.sets pass.now.places.now (numbers_in pass.now.rows.now) r k }
    requires still { IsFalseClause pass.now.trail.now clause.old }
    ensures { OnOk result (IsGrown pass.now.trail.now (IsOutOn pass.now r) clause.old clause.new) }
{
    let i = clause.len();
    explain_out(pass, k, &pass.number_at(r, k), clause)?;
    said.note(i, k);
    Ok(())
}

/// Adds to a false clause what it takes to say that some value of the row is not in its place's set: nothing where the clause says so. A
/// bound is said of this place where it can be. `false` where each value is in its place's set.
fn refute_row(
    pass: &Pass,
    r: usize,
    p: usize,
    op: Op,
    said: &mut Said,
    clause: &mut Items<Lit>,
) -> Result<bool, Memory>
    requires whole { IsRowOfTable pass.now r }
    requires in_range { p < length pass.now.places.now }
    requires still { IsFalseClause pass.now.trail.now clause.old }
    ensures { IfOk result (λ out. MatchBool out (IsGrown pass.now.trail.now (IsOutOn pass.now r) clause.old clause.new) (IsOpenRow pass.now r)) }
{
    if op != Op::Equal && !may_be(pass.trail, pass.places[p], &pass.number_at(r, p)) {
        explain_place(pass, r, p, said, clause)?;
        return Ok(true);
    }
    if is_row_said(pass, r, said, clause) {
        return Ok(true);
    }
    let Some(k) = place_out(pass, r, clause) else {
        return Ok(false);
    };
    explain_place(pass, r, k, said, clause)?;
    Ok(true)
}

/// Whether the row's value at the place stands so to the bound.
fn row_stands(pass: &Pass, r: usize, p: usize, op: Op, bound: &i64) -> bool
    requires whole { IsRowOfTable pass.now r }
    requires in_range { p < length pass.now.places.now }
    ensures { result ≡ compares op (number_in_row pass.now r p) bound.now }
{
    op.compares(pass.number_at(r, p), *bound)
}

/// Whether each value of the row is in its place's set.
fn is_open(pass: &Pass, r: usize) -> bool
    requires whole { IsRowOfTable pass.now r }
    ensures { IsTrue result → IsOpenRow pass.now r }
{
    for k in 0..pass.places.len() {
        if !may_be(pass.trail, pass.places[k], &pass.number_at(r, k)) {
            return false;
        }
    }
    true
}

/// A row before which the value of none at the place stands so to the bound.
fn first_row(pass: &Pass, p: usize, op: Op, bound: &i64) -> usize
    requires in_range { p < length pass.now.places.now }
    ensures in_rows { result ≤ length pass.now.rows.now / length pass.now.places.now }
    ensures before { (r : ℕ) → r < result → compares op (number_in_row pass.now r p) bound.now ≡ false }
{
    match op {
        Op::Equal => pass.supports.first_with(p, bound).min(pass.count()),
        _ => 0,
    }
}

/// A row behind this one; of those between them the value of none at the place stands so to the bound.
fn next_row(pass: &Pass, p: usize, op: Op, bound: &i64, r: usize) -> usize
    requires in_range { p < length pass.now.places.now }
    requires row { r < length pass.now.rows.now / length pass.now.places.now }
    ensures behind { r < result }
    ensures in_rows { result ≤ length pass.now.rows.now / length pass.now.places.now }
    ensures between { (s : ℕ) → r < s → s < result → compares op (number_in_row pass.now s p) bound.now ≡ false }
{
    match op {
        Op::Equal if pass.number_at(r, p) == *bound => {
            pass.supports.next_with(p, r).min(pass.count())
        }
        _ => r + 1,
    }
}

/// The clause that no value of the place, counted from 0, stands so to the bound, or some row whose value there does stands: an inference
/// by the rule `rows`. Nothing where such a row stands. Some value of the place has to stand so.
fn explain_claim(pass: &Pass, p: usize, op: Op, bound: &i64) -> Result<Option<Items<Lit>>, Memory>
    requires in_range { p < length pass.now.places.now }
    requires near { IsNearLimits bound.now }
    requires may_stand { MayStand pass.now.trail.now.sets (place_at pass.now.places.now p) op bound.now }
    ensures found { IfOk result (λ found. IfSome found (IsJustifiedByTable pass.now)) }
    ensures none { IfOk result (λ found. IfNone found (IsClaimSupported pass.now p op bound.now)) }
{
    let mut clause = Items::new(pass.alloc);
    let mut said = Said::new();
    let mut r = first_row(pass, p, op, bound);
    while r < pass.count() {
        if row_stands(pass, r, p, op, bound) {
            if !refute_row(pass, r, p, op, &mut said, &mut clause)? {
                return Ok(None);
            }
        }
        r = next_row(pass, p, op, bound, r);
    }
    let claim = Claim {
        term: pass.places[p],
        op,
        number: *bound,
    };
    if !force(pass.trail, claim, &mut clause)? {
        return Ok(None);
    }
    Ok(Some(clause))
}

/// Whether each value of the row is in its place's set. A row that is marked is not looked at again.
fn is_open_row(pass: &Pass, r: usize, marks: &mut Vec<bool>) -> bool
    requires whole { IsRowOfTable pass.now r }
    requires marks { AreOpenRows pass.now marks.old.items }
    ensures open { IsTrue result → IsOpenRow pass.now r }
    ensures marks { AreOpenRows pass.now marks.new.items }
{
    if r < marks.len() && marks[r] {
        return true;
    }
    if !is_open(pass, r) {
        return false;
    }
    if r < marks.len() {
        marks[r] = true;
    }
    true
}

/// Whether this row, where there is one, has the value at the place, and each of its values in its place's set.
fn is_support(pass: &Pass, p: usize, value: &i64, row: Option<usize>, marks: &mut Vec<bool>) -> bool
    requires in_range { p < length pass.now.places.now }
    requires marks { AreOpenRows pass.now marks.old.items }
    ensures support { IsTrue result → HasSupport pass.now p value.now }
    ensures marks { AreOpenRows pass.now marks.new.items }
{
    let Some(r) = row else {
        return false;
    };
    if r < pass.count() {
        if pass.number_at(r, p) == *value {
            return is_open_row(pass, r, marks);
        }
    }
    false
}

/// Appends to `found` the inference that no value of the place stands so to the bound. `false` where a row stands whose value there does.
fn bar_claim(
    pass: &Pass,
    p: usize,
    op: Op,
    bound: &i64,
    found: &mut Findings,
) -> Result<bool, Memory>
    requires in_range { p < length pass.now.places.now }
    requires near { IsNearLimits bound.now }
    requires may_stand { MayStand pass.now.trail.now.sets (place_at pass.now.places.now p) op bound.now }
    requires before { AreFoundOfTable pass.now found.old }
    ensures found { AreFoundOfTable pass.now found.new }
    ensures kept { found.new ≡ [] → found.old ≡ [] }
    ensures some { IfOk result (λ barred. IsTrue barred → found.new ≢ []) }
    ensures none { IfOk result (λ barred. barred ≡ false → IsClaimSupported pass.now p op bound.now) }
{
    let Some(clause) = explain_claim(pass, p, op, bound)? else {
        return Ok(false);
    };
    found.hand_over(pass.number, Rule::Rows, Some(clause))?;
    Ok(true)
}

/// Appends to `found` the inference that the place has not this value. `false` where a row stands that has it there.
fn bar_value(pass: &Pass, p: usize, value: &i64, found: &mut Findings) -> Result<bool, Memory>
    requires in_range { p < length pass.now.places.now }
    requires limits { IsInLimits value.now }
    requires may { MayHave pass.now p value.now }
    requires before { AreFoundOfTable pass.now found.old }
    ensures found { AreFoundOfTable pass.now found.new }
    ensures kept { found.new ≡ [] → found.old ≡ [] }
    ensures some { IfOk result (λ barred. IsTrue barred → found.new ≢ []) }
    ensures none { OnOk result (found.new ≡ [] → HasSupport pass.now p value.now) }
{
    bar_claim(pass, p, Op::Equal, value, found)
}

/// The same, where the row that is looked at first does not show that the place may have the value.
fn test_value(
    pass: &Pass,
    p: usize,
    value: &i64,
    row: Option<usize>,
    marks: &mut Vec<bool>,
    found: &mut Findings,
) -> Result<(), Memory>
    requires in_range { p < length pass.now.places.now }
    requires limits { IsInLimits value.now }
    requires may { MayHave pass.now p value.now }
    requires marks { AreOpenRows pass.now marks.old.items }
    requires before { AreFoundOfTable pass.now found.old }
    ensures found { AreFoundOfTable pass.now found.new }
    ensures kept { found.new ≡ [] → found.old ≡ [] }
    ensures none { OnOk result (found.new ≡ [] → HasSupport pass.now p value.now) }
    ensures marks { AreOpenRows pass.now marks.new.items }
{
    if is_support(pass, p, value, row, marks) {
        return Ok(());
    }
    bar_value(pass, p, value, found)?;
    Ok(())
}

/// An inference for each value of the place that no row supports.
fn bar_values(
    pass: &Pass,
    p: usize,
    marks: &mut Vec<bool>,
    found: &mut Findings,
) -> Result<(), Memory>
    requires in_range { p < length pass.now.places.now }
    requires marks { AreOpenRows pass.now marks.old.items }
    requires before { AreFoundOfTable pass.now found.old }
    ensures found { AreFoundOfTable pass.now found.new }
    ensures kept { found.new ≡ [] → found.old ≡ [] }
    ensures none { OnOk result (found.new ≡ [] → (v : ℤ) → MayHave pass.now p v → HasSupport pass.now p v) }
    ensures marks { AreOpenRows pass.now marks.new.items }
{
    let mut value = least_of(pass.trail, pass.places[p]);
    loop {
        let row = pass.supports.row_of(pass.possible, p, value);
        test_value(pass, p, &value, row, marks, found)?;
        match next_value(pass.trail, pass.places[p], &value) {
            Some(next) => value = next,
            None => return Ok(()),
        }
    }
}

/// The inference that no value of the place stands so to the bound, where its end does: `false` where the end does not, or some row stands
/// whose value there does.
fn bar_beyond(
    pass: &Pass,
    p: usize,
    op: Op,
    bound: i64,
    end: &i64,
    found: &mut Findings,
) -> Result<bool, Memory>
    requires in_range { p < length pass.now.places.now }
    requires may { MayHave pass.now p end.now }
    requires before { AreFoundOfTable pass.now found.old }
    ensures found { AreFoundOfTable pass.now found.new }
    ensures kept { found.new ≡ [] → found.old ≡ [] }
    ensures some { IfOk result (λ barred. IsTrue barred → found.new ≢ []) }
{
    if bound < LEAST_BOUND || GREATEST_BOUND < bound || !op.compares(*end, bound) {
        return Ok(false);
    }
    bar_claim(pass, p, op, &bound, found)
}

/// The inference that the place goes no further than the next value that the rows may support. Where the bound that is proposed does not
/// do, it is that the place has not the end. `false` where a row supports the end.
fn bar_end(
    pass: &Pass,
    p: usize,
    op: Op,
    bound: i64,
    end: &i64,
    row: Option<usize>,
    marks: &mut Vec<bool>,
    found: &mut Findings,
) -> Result<bool, Memory>
    requires in_range { p < length pass.now.places.now }
    requires limits { IsInLimits end.now }
    requires may { MayHave pass.now p end.now }
    requires marks { AreOpenRows pass.now marks.old.items }
    requires before { AreFoundOfTable pass.now found.old }
    ensures found { AreFoundOfTable pass.now found.new }
    ensures kept { found.new ≡ [] → found.old ≡ [] }
    ensures some { IfOk result (λ barred. IsTrue barred → found.new ≢ []) }
    ensures none { OnOk result (found.new ≡ [] → HasSupport pass.now p end.now) }
    ensures marks { AreOpenRows pass.now marks.new.items }
{
    if is_support(pass, p, end, row, marks) {
        return Ok(false);
    }
    if bar_beyond(pass, p, op, bound, end, found)? {
        return Ok(true);
    }
    bar_value(pass, p, end, found)
}

/// The inference that the place goes no further, for each of its ends that no row supports. `false` where there is none.
fn bar_ends(
    pass: &Pass,
    p: usize,
    ends: Interval,
    marks: &mut Vec<bool>,
    found: &mut Findings,
) -> Result<bool, Memory>
    requires in_range { p < length pass.now.places.now }
    requires limited { IsLimitedInterval ends }
    requires may { MayHave pass.now p ends.low × MayHave pass.now p ends.high }
    requires marks { AreOpenRows pass.now marks.old.items }
    requires before { AreFoundOfTable pass.now found.old }
    ensures found { AreFoundOfTable pass.now found.new }
    ensures kept { found.new ≡ [] → found.old ≡ [] }
    ensures some { IfOk result (λ barred. IsTrue barred → found.new ≢ []) }
    ensures none { OnOk result (found.new ≡ [] → HasSupport pass.now p ends.low × HasSupport pass.now p ends.high) }
    ensures marks { AreOpenRows pass.now marks.new.items }
{
    let next = pass.supports.next_from(pass.possible, pass.rows, p, ends);
    let bound = next.saturating_sub(1);
    let row = pass.supports.row_of(pass.possible, p, ends.low);
    let is_low_barred = bar_end(pass, p, Op::AtMost, bound, &ends.low, row, marks, found)?;
    let last = pass.supports.last_up_to(pass.possible, pass.rows, p, ends);
    let bound = last.saturating_add(1);
    let row = pass.supports.row_of(pass.possible, p, ends.high);
    let is_high_barred = bar_end(pass, p, Op::AtLeast, bound, &ends.high, row, marks, found)?;
    Ok(is_low_barred || is_high_barred)
}

/// An inference for each value of a narrow place, and for each end of a wide one, that no row supports. Of many values that lie far apart
/// the ends come first, and those between them in a later pass. `true` where each value was tested.
fn bar_place(
    pass: &Pass,
    p: usize,
    marks: &mut Vec<bool>,
    found: &mut Findings,
) -> Result<bool, Memory>
    requires in_range { p < length pass.now.places.now }
    requires marks { AreOpenRows pass.now marks.old.items }
    requires before { AreFoundOfTable pass.now found.old }
    ensures found { AreFoundOfTable pass.now found.new }
    ensures kept { found.new ≡ [] → found.old ≡ [] }
    ensures none { OnOk result (found.new ≡ [] → HasSupports pass.now.trail.now pass.now.places.now (numbers_in pass.now.rows.now) p) }
    ensures marks { AreOpenRows pass.now marks.new.items }
{
    let ends = interval_of(pass.trail, pass.places[p]);
    if is_close_place(pass, p, ends) {
        bar_values(pass, p, marks, found)?;
        return Ok(true);
    }
    if bar_ends(pass, p, ends, marks, found)? {
        return Ok(false);
    }
    if is_declared_narrow(pass.trail, pass.places[p]) {
        bar_values(pass, p, marks, found)?;
        return Ok(true);
    }
    Ok(false)
}

/// Whether no row is possible.
fn is_none_possible(pass: &Pass) -> bool {
    pass.possible.iter().all(|word| *word == 0)
}

/// An inference for each value of a narrow place, and for each end of a wide one, that no row supports. Where no row is possible, those of
/// the first place that is narrow are enough, since they leave it no value.
pub(crate) fn bar_unsupported(pass: &Pass, found: &mut Findings) -> Result<(), Memory>
    requires before { AreFoundOfTable pass.now found.old }
    ensures found { AreFoundOfTable pass.now found.new }
    ensures none { OnOk result (found.new ≡ [] → AreSupported pass.now.trail.now pass.now.places.now (numbers_in pass.now.rows.now) (length pass.now.places.now)) }
{
    let is_none_possible = is_none_possible(pass);
    let mut marks = Vec::from_elem(pass.alloc, false, pass.supports.rows())?;
    for p in 0..pass.places.len() {
        let is_each_tested = bar_place(pass, p, &mut marks, found)?;
        if is_none_possible && is_each_tested && !found.is_empty() {
            return Ok(());
        }
    }
    Ok(())
}
