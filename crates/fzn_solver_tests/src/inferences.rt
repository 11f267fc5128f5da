// What follows from constraints on x and y, by clauses worked out by hand.
ghost use Rattle.std.specs.Prelude.{◌≡◌, ◌≤◌, length};
ghost use Rattle.fzn_domain.specs.Narrow.{NoneEmpty};
ghost use Rattle.fzn_meaning.specs.Solutions.{declared_sets};
ghost use Rattle.fzn_meaning.specs.WellFormed.{IsWellFormed};

use crate::models::{model_of, trail_of};
use fzn_domain::{Lit, Memory, Op, VarId};
use fzn_linear::{Propagator, propagator_of};
use fzn_meaning::Model;
use fzn_propagator::{Constraints, Findings};
use fzn_propagators::Propagators;
use fzn_rules::Rule;
use fzn_trail::Trail;
use fzn_trail_tests::{is_filled, keep};
use std::alloc::Global;
use std::test::*;

/// The declared sets of x and of y, and from where to where each of them is left; constraints; where clauses follow by `lin` from one of
/// them, its number and the clause, for each that one pass hands over.
static ROWS: &str = "
0..10 0..10 0..10 0..10 | constraint int_lin_le([-2,0],[x,y],-7); | 1 x>=4
0..10 0..10 6..10 0..10 | constraint int_lin_le([1,1],[x,y],8); | 1 x<=8, 1 x<=5 y<=2
0..10 0..10 6..8 0..10 | constraint int_lin_le([1,1],[x,y],8); | 1 x<=5 y<=2
0..10 0..10 1..10 0..5 | constraint int_lin_le([2,-3],[x,y],-13); | 1 y>=6 x<=1, 1 x<=0 y>=5
0..10 0..10 6..10 0..10 | constraint int_lin_eq([1,1],[x,y],8); | 1 x<=8, 1 x<=5 y<=2
0..10 0..10 2..10 0..9 | constraint int_lin_eq([1,1],[x,y],5); | 1 x<=5, 1 x<=1 y<=3
0..10 0..10 2..3 0..9 | constraint int_lin_eq([1,1],[x,y],5); | 1 x<=1 y<=3, 1 x>=4 y>=2
0..10 0..10 0..10 0..10 | constraint int_lin_eq([1,1],[x,y],20); | 1 x>=10, 1 y>=10
0..10 0..10 1..10 0..4 | constraint int_lin_le([2,-3],[x,y],-14); | 1 x<=0 y>=5
0..10 0..10 3..3 3..3 | constraint int_lin_ne([1,-1],[x,y],0); | 1 x!=3 y!=3
0..10 0..10 3..3 0..10 | constraint int_lin_ne([1,-1],[x,y],0); | 1 x!=3 y!=3
0..10 0..10 2..2 0..10 | constraint int_lin_ne([2,3],[x,y],13); | 1 x!=2 y!=3
0..10 0..10 0..10 3..3 | constraint int_lin_ne([-2,-3],[x,y],-13); | 1 y!=3 x!=2
0..10 0..10 0..10 0..10 | constraint int_lin_ne([0,2],[x,y],6); | 1 y!=3
0..10 0..10 2..2 0..10 | constraint int_lin_ne([2,3],[x,y],14); |
0..10 0..10 3..3 4..10 | constraint int_lin_ne([1,-1],[x,y],0); |
0..10 0..10 3..3 0..10 | constraint int_lin_ne([1,1],[x,y],30); |
0..10 0..10 3..4 3..4 | constraint int_lin_ne([1,-1],[x,y],0); |
0..10 0..10 0..10 0..10 | constraint int_lin_le([1,1],[x,y],20); |
0..10 0..10 1..1 5..5 | constraint int_lin_le([2,-3],[x,y],-13); |
0..10 0..10 3..3 3..3 | constraint int_lin_eq([1,1],[x,y],6); |
0..10 0..10 3..3 3..3 | constraint int_lin_ne([1,-1],[x,y],1); |
bool bool 0..1 0..1 | constraint bool_clause([x],[y]); |
bool bool 0..1 1..1 | constraint bool_clause([x],[y]); | 1 y<=0 x>=1
bool bool 0..0 0..1 | constraint bool_clause([x],[y]); | 1 x>=1 y<=0
bool bool 0..0 1..1 | constraint bool_clause([x],[y]); | 1 y<=0 x>=1
0..1 bool 0..1 0..1 | constraint int_lin_le_reif([1],[x],0,y); |
0..1 bool 0..0 1..1 | constraint int_lin_le_reif([1],[x],0,y); |
0..1 bool 1..1 0..1 | constraint int_lin_le_reif([1],[x],0,y); | 1 x<=0 y!=1
0..1 bool 0..0 0..1 | constraint int_lin_le_reif([1],[x],0,y); | 1 x>=1 y!=0
0..1 bool 0..1 1..1 | constraint int_lin_le_reif([1],[x],0,y); | 1 x<=0 y!=1
0..1 bool 0..1 0..0 | constraint int_lin_le_reif([1],[x],0,y); | 1 x>=1 y!=0
0..1 bool 0..1 0..0 | constraint int_lin_eq_reif([1],[x],0,y); | 1 x!=0 y!=0
0..1 bool 0..1 0..1 | constraint int_lin_eq_reif([1],[x],0,y); |
0..1 bool 0..1 1..1 | constraint int_lin_ne_reif([1],[x],0,y); | 1 x!=0 y!=1
0..1 bool 0..1 0..1 | constraint int_lin_ne_reif([1],[x],0,y); |
0..10 0..10 0..10 0..10 | constraint int_lin_le([1,1],[x,y],8); constraint int_lin_le([2,0],[x,y],7); | 1 x<=8
0..10 0..10 0..10 0..10 | constraint int_lin_le([1,1],[x,y],8); constraint int_lin_le([-2,0],[x,y],-7); | 2 x>=4
0..10 0..10 0..8 0..8 | constraint int_lin_le([1,1],[x,y],8); constraint int_lin_le([-2,0],[x,y],-7); | 2 x>=4
0..10 0..10 4..8 0..8 | constraint int_lin_le([1,1],[x,y],8); constraint int_lin_le([-2,0],[x,y],-7); | 1 x<=3 y<=4
0..10 0..10 0..3 0..0 | constraint int_lin_le([1,1],[x,y],8); constraint int_lin_le([-2,0],[x,y],-7); | 2 x>=4
0..10 0..10 4..4 0..4 | constraint int_lin_le([1,1],[x,y],8); constraint int_lin_le([-2,0],[x,y],-7); |
0..10 0..10 5..5 3..3 | constraint int_lin_le([1,1],[x,y],8); constraint int_lin_le([-2,0],[x,y],-7); |
";

/// The number of the constraint and the clause in letters.
fn text_of(alloc: Global, constraint: u64, rule: &Rule, clause: &[Lit]) -> Result<String, Memory> {
    let mut text = format!(in alloc; "{constraint}")?;
    if !matches!(rule, Rule::Lin) {
        text.push_str(" by another rule")?;
    }
    for lit in clause {
        let name = if lit.var.0 == 1 { "x" } else { "y" };
        write!(text, " {name}{}{}", sign_of(lit.op), lit.value)?;
    }
    Ok(text)
}

fn sign_of(op: Op) -> &'static str {
    match op {
        Op::AtMost => "<=",
        Op::AtLeast => ">=",
        Op::Equal => "=",
        Op::NotEqual => "!=",
    }
}

/// What one pass of the propagator of the first constraint finds, in order.
fn found_in_pass(alloc: Global, model: &Model, trail: &Trail) -> Result<String, Memory>
    requires well_formed { IsWellFormed model.now }
    requires declared { trail.now.declared ≡ declared_sets model.now.vars }
    requires filled { NoneEmpty trail.now.sets }
    requires some { 1 ≤ length model.now.constraints }
{
    let mut found = Findings::new(alloc);
    if let Some(propagator) = propagator_of(alloc, model, 1)? {
        propagator.propagate(alloc, trail, &mut found)?;
    }
    let mut text = String::new(alloc);
    for _ in 0..found.len() {
        if let Some(next) = found.take_first() {
            if !text.is_empty() {
                text.push_str(", ")?;
            }
            let clause = next.clause.as_slice();
            text.push_str(text_of(alloc, next.constraint, &next.rule, clause)?.as_str())?;
        }
    }
    Ok(text)
}

/// What all propagators find first together, asked as the search asks them.
fn first_of_all<C: Constraints>(
    alloc: Global,
    propagators: &mut C,
    model: &Model,
    trail: &Trail,
) -> Result<String, Memory>
    requires is_for { C.is_for propagators.old model.now }
    requires declared { trail.now.declared ≡ declared_sets model.now.vars }
    requires filled { NoneEmpty trail.now.sets }
{
    if let Some(found) = propagators.infer(alloc, model, trail)? {
        return text_of(
            alloc,
            found.constraint,
            &found.rule,
            found.clause.as_slice(),
        );
    }
    Ok(String::new(alloc))
}

/// Whether both find what is wanted: of several constraints the first alone is not asked.
fn is_found(alloc: Global, model: &Model, trail: &Trail, wanted: &str) -> Result<bool, Memory>
    requires well_formed { IsWellFormed model.now }
    requires declared { trail.now.declared ≡ declared_sets model.now.vars }
    requires filled { NoneEmpty trail.now.sets }
{
    let (first, _) = wanted.split_once(", ").unwrap_or((wanted, ""));
    let mut propagators: Propagators = Propagators::new(alloc, model)?;
    let found = first_of_all(alloc, &mut propagators, model, trail)?;
    if model.constraints.len() != 1 {
        return Ok(found.as_str() == first);
    }
    let alone = found_in_pass(alloc, model, trail)?;
    Ok(found.as_str() == first && alone.as_str() == wanted)
}

/// The number before and behind the dots.
fn ends(range: &str) -> (i64, i64) {
    let (low, high) = range.split_once("..").unwrap_or((range, range));
    (low.parse().unwrap_or(0), high.parse().unwrap_or(0))
}

/// Keeps a variable within the range.
fn keep_range(trail: &mut Trail, var: VarId, range: &str) -> Result<(), Memory>
    requires { (1 ≤ var.0) × (var.0 ≤ length trail.old.declared) }
    ensures { trail.new.declared ≡ trail.old.declared }
{
    let (low, high) = ends(range);
    keep(trail, var, Op::AtLeast, low)?;
    keep(trail, var, Op::AtMost, high)?;
    Ok(())
}

/// Whether what is wanted is found where x and y are left in these ranges.
fn is_inferred(alloc: Global, model: &Model, ranges: &str, wanted: &str) -> Result<bool, Memory>
    requires { IsWellFormed model.now }
{
    let (x, y) = ranges.split_once(' ').unwrap_or((ranges, ""));
    let mut trail = trail_of(alloc, model)?;
    if model.vars.len() != 2 {
        return Ok(false);
    }
    keep_range(&mut trail, VarId(1), x)?;
    keep_range(&mut trail, VarId(2), y)?;
    Ok(is_filled(&trail, 2) && is_found(alloc, model, &trail, wanted)?)
}

/// Whether the row is right.
fn is_right(alloc: Global, row: &str) -> Result<bool, Fail> {
    let (sets, rest) = row.split_once(" |").unwrap_or((row, ""));
    let (constraints, wanted) = rest.split_once(" |").unwrap_or((rest, ""));
    let (x, others) = sets.split_once(' ').unwrap_or((sets, ""));
    let (y, ranges) = others.split_once(' ').unwrap_or((others, ""));
    let text = format!(in alloc; "var {x}: x; var {y}: y; {constraints} solve satisfy;")?;
    let model = model_of(alloc, text.as_str())?;
    Ok(is_inferred(alloc, &model, ranges, wanted.trim())?)
}

#[test]
fn inferences_of_rows(rt: HostRuntime) -> Result<(), Fail> {
    for row in ROWS.trim().lines() {
        assert!(rt; is_right(rt.alloc(), row)?, "{row}");
    }
    Ok(())
}
