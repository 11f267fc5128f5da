// Rows that are derived of small models, and the sets that refute them.
use crate::kinds::model_of;
use crate::rules::declared;
use fzn_cited::{DeriveFault, Multiple};
use fzn_domain::{Memory, VarId};
use fzn_list::Items;
use fzn_meaning::Constraint;
use fzn_row::{RowDeriver, RowItem, derived_row_holds, derived_row_is_formed, one_derived_row};
use fzn_rules::{Rule, refutes};
use std::alloc::Global;
use std::test::*;

/// Three of two values, and three of three.
const TWO: &str =
    "var 1..2: x; var 1..2: y; var 1..2: z; constraint fzn_all_different_int([x,y,z]); solve satisfy;";

const THREE: &str =
    "var 1..3: x; var 1..3: y; var 1..3: z; constraint fzn_all_different_int([x,y,z]); solve satisfy;";

/// What costs at most 15.
const COSTS: &str = "var 1..3: x; var 0..99: y;
    constraint array_int_element(x,[10,20,30],y); constraint int_lin_le([1],[y],15); solve satisfy;";

/// Without what costs least.
const DEAR: &str = "var 2..3: x; var 0..99: y; solve satisfy;";

/// Two numbers that are 3 together, and at most 2.
const PAIR: &str = "var 1..2: x; var 1..2: y;
    constraint fzn_table_int([x,y],[1,2,2,1]); constraint int_lin_le([1,1],[x,y],2); solve satisfy;";

/// A table in which one place is a number, and what is at least 2.
const PLACED: &str = "var 1..2: x;
    constraint fzn_table_int([3,x],[3,1,4,2]); constraint int_lin_le([-1],[x],-2); solve satisfy;";

/// The same, and what is at least 1.
const LOW: &str = "var 1..2: x;
    constraint fzn_table_int([3,x],[3,1,4,2]); constraint int_lin_le([-1],[x],-1); solve satisfy;";

/// Costs that are 7 together in each row, and at most 6.
const OFFERS: &str = "var 1..2: x; var 0..9: y; var 0..9: z;
    constraint fzn_table_int([x,y,z],[1,2,5,2,5,2]); constraint int_lin_le([1,1],[y,z],6); solve satisfy;";

fn prices(alloc: Global, low: i64, prices: &[i64]) -> Result<RowItem, Memory> {
    Ok(RowItem::Prices {
        constraint: 1,
        low,
        prices: Items::from_slice(alloc, prices)?,
    })
}

fn multiple(alloc: Global, multiplier: i64, constraint: u64) -> Result<RowItem, Memory> {
    let mut multiples = Items::new(alloc);
    multiples.push(Multiple {
        multiplier,
        constraint,
    })?;
    Ok(RowItem::Multiples(multiples))
}

fn moved(constraint: u64, variable: usize) -> RowItem {
    RowItem::Move {
        constraint,
        variable: VarId(variable),
    }
}

fn columns(alloc: Global, column: u64, low: i64, prices: &[i64]) -> Result<RowItem, Memory> {
    Ok(RowItem::Columns {
        constraint: 1,
        column,
        low,
        prices: Items::from_slice(alloc, prices)?,
    })
}

fn to_rows(constraint: u64, variable: usize) -> RowItem {
    RowItem::Rows {
        constraint,
        variable: VarId(variable),
    }
}

/// What comes of the items, with so many weights at most, on the sets of another file.
#[tactic(auto, unfolding(fzn_meaning::specs::Meaning::IsWellFormedConstraint))]
pub fn told(
    alloc: Global,
    file: &str,
    items: &[RowItem],
    most: usize,
    present: &str,
) -> Result<&'static str, Fail> {
    let model = model_of(alloc, file)?;
    let present = model_of(alloc, present)?;
    let sets = declared(alloc, &present)?;
    if sets.len() != model.vars.len() || sets.has_empty() {
        return Ok("other sets");
    }
    let mut room = RowDeriver::new(alloc, model.vars.len())?;
    let given = model.constraints.as_slice();
    match room.derive(alloc, given, model.vars.as_slice(), items, most) {
        Ok(row) => Ok(if refutes(&Constraint::Row(row), &sets, &Rule::Row) {
            "refuted"
        } else {
            "open"
        }),
        Err(DeriveFault::NotDerived) => Ok("not derived"),
        Err(DeriveFault::NoSuchConstraint) => Ok("no such constraint"),
        Err(_) => Ok("another fault"),
    }
}

#[test]
fn places_pay_for_their_values(rt: HostRuntime) -> Result<(), Fail> {
    assert!(rt;
        (
            derived_row_holds(),
            derived_row_is_formed(),
            one_derived_row()
        ) == ((), (), ())
    );
    let alloc = rt.alloc();
    let items = [prices(alloc, 1, &[1, 1])?];
    assert!(rt; told(alloc, TWO, &items, 6, TWO)? == "refuted");
    assert!(rt; told(alloc, TWO, &items, 5, TWO)? == "not derived");
    assert!(rt; told(alloc, THREE, &items, 6, TWO)? == "not derived");
    let cheap = [prices(alloc, 1, &[0, 0, -1])?];
    assert!(rt; told(alloc, THREE, &cheap, 9, TWO)? == "refuted");
    assert!(rt; told(alloc, THREE, &cheap, 9, THREE)? == "open");
    Ok(())
}

#[test]
fn a_part_moves_to_what_decides_it(rt: HostRuntime) -> Result<(), Fail> {
    let alloc = rt.alloc();
    let items = [multiple(alloc, 1, 2)?, moved(1, 2)];
    assert!(rt; told(alloc, COSTS, &items, 3, COSTS)? == "open");
    assert!(rt; told(alloc, COSTS, &items, 3, DEAR)? == "refuted");
    let still = [multiple(alloc, 1, 2)?];
    assert!(rt; told(alloc, COSTS, &still, 3, DEAR)? == "open");
    Ok(())
}

#[test]
fn what_derives_no_row(rt: HostRuntime) -> Result<(), Fail> {
    let alloc = rt.alloc();
    let other = [multiple(alloc, 1, 2)?, moved(1, 1)];
    assert!(rt; told(alloc, COSTS, &other, 3, COSTS)? == "not derived");
    let none = [multiple(alloc, 1, 3)?];
    assert!(rt; told(alloc, COSTS, &none, 3, COSTS)? == "no such constraint");
    let below = [multiple(alloc, -1, 2)?];
    assert!(rt; told(alloc, COSTS, &below, 3, COSTS)? == "not derived");
    Ok(())
}

#[test]
fn columns_pay_for_the_entries_of_rows(rt: HostRuntime) -> Result<(), Fail> {
    let alloc = rt.alloc();
    let items = [
        multiple(alloc, 1, 2)?,
        columns(alloc, 1, 1, &[1, 2])?,
        columns(alloc, 2, 1, &[1, 2])?,
    ];
    assert!(rt; told(alloc, PAIR, &items, 8, PAIR)? == "refuted");
    assert!(rt; told(alloc, PAIR, &items, 7, PAIR)? == "not derived");
    let one = [multiple(alloc, 1, 2)?, columns(alloc, 1, 1, &[1, 2])?];
    assert!(rt; told(alloc, PAIR, &one, 8, PAIR)? == "open");
    let none = [columns(alloc, 3, 1, &[1, 2])?];
    assert!(rt; told(alloc, PAIR, &none, 8, PAIR)? == "not derived");
    Ok(())
}

#[test]
fn a_number_pays_by_the_bound(rt: HostRuntime) -> Result<(), Fail> {
    let alloc = rt.alloc();
    let items = [
        multiple(alloc, 1, 2)?,
        columns(alloc, 1, 3, &[5])?,
        to_rows(1, 1),
    ];
    assert!(rt; told(alloc, PLACED, &items, 4, PLACED)? == "refuted");
    assert!(rt; told(alloc, LOW, &items, 4, LOW)? == "open");
    Ok(())
}

#[test]
fn what_variables_weigh_goes_to_the_rows_of_a_table(rt: HostRuntime) -> Result<(), Fail> {
    let alloc = rt.alloc();
    let items = [multiple(alloc, 1, 2)?, to_rows(1, 2), to_rows(1, 3)];
    assert!(rt; told(alloc, OFFERS, &items, 4, OFFERS)? == "refuted");
    assert!(rt; told(alloc, OFFERS, &items, 3, OFFERS)? == "not derived");
    let one = [multiple(alloc, 1, 2)?, to_rows(1, 2)];
    assert!(rt; told(alloc, OFFERS, &one, 4, OFFERS)? == "open");
    let other = [multiple(alloc, 1, 2)?, to_rows(2, 2)];
    assert!(rt; told(alloc, OFFERS, &other, 4, OFFERS)? == "not derived");
    Ok(())
}
