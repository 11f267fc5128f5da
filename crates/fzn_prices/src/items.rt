// The items that multipliers and prices make.
use crate::ascent::{Ascent, part};
use crate::multiplier::Multiplier;
use fzn_cited::Multiple;
use fzn_domain::{Memory, VarId};
use fzn_list::Items;
use fzn_moves::{Move, NO_ENTRY};
use fzn_relaxation::{Apart, Problem};
use fzn_row::RowItem;
use std::alloc::Global;

/// What a number is paid that no row has, so that its variable weighs too much there.
const BARRED: i64 = -1_000_000_000_000;

/// The items that the multipliers and prices make: multiples, then what adds to variables, which is prices of values and of entries, then
/// moves, and at last what goes to rows of tables, from where nothing moves on.
pub fn items_of(
    alloc: Global,
    problem: &Problem,
    ascent: &Ascent,
) -> Result<Items<RowItem>, Memory> {
    let mut items = Items::new(alloc);
    let multiples = multiples_of(alloc, problem, ascent)?;
    if 0 < multiples.len() {
        items.push(RowItem::Multiples(multiples))?;
    }
    push_prices(alloc, problem, ascent, &mut items)?;
    push_columns(alloc, problem, ascent, &mut items)?;
    push_moves(alloc, problem, ascent, &mut items)?;
    push_exchanges(problem, ascent, &mut items)?;
    push_givers(problem, ascent, &mut items)?;
    Ok(items)
}

/// The rows with their multipliers, in the order of the constraints.
fn multiples_of(
    alloc: Global,
    problem: &Problem,
    ascent: &Ascent,
) -> Result<Items<Multiple>, Memory> {
    let mut all = Vec::new(alloc);
    for (row, weight) in problem.free.iter().zip(ascent.weights.iter()) {
        if weight.number != 0 {
            all.push((row.constraint, weight.number))?;
        }
    }
    let defining = ascent.lagrangian.defining.iter();
    for (definition, multiplier) in problem.definitions.iter().zip(defining) {
        if *multiplier != 0 {
            all.push((definition.row.constraint, *multiplier))?;
        }
    }
    all.sort_unstable();
    let mut multiples = Items::new(alloc);
    for (constraint, multiplier) in all.iter() {
        multiples.push(Multiple {
            multiplier: *multiplier,
            constraint: *constraint,
        })?;
    }
    Ok(multiples)
}

fn push_prices(
    alloc: Global,
    problem: &Problem,
    ascent: &Ascent,
    items: &mut Items<RowItem>,
) -> Result<(), Memory> {
    let mut start = 0usize;
    for apart in problem.aparts.all.iter() {
        let end = start.saturating_add(apart.count);
        let prices = part(&ascent.prices, start, end);
        if has_some(prices) {
            items.push(priced(alloc, *apart, prices)?)?;
        }
        start = end;
    }
    Ok(())
}

/// Whether some price is not 0.
fn has_some(prices: &[Multiplier]) -> bool {
    for price in prices {
        if price.number != 0 {
            return true;
        }
    }
    false
}

fn priced(alloc: Global, apart: Apart, prices: &[Multiplier]) -> Result<RowItem, Memory> {
    let mut numbers = Items::new(alloc);
    for price in prices {
        numbers.push(price.number)?;
    }
    Ok(RowItem::Prices {
        constraint: apart.constraint,
        low: apart.low,
        prices: numbers,
    })
}

/// The prices of the columns of tables, without the zeros at both ends.
fn push_columns(
    alloc: Global,
    problem: &Problem,
    ascent: &Ascent,
    items: &mut Items<RowItem>,
) -> Result<(), Memory> {
    for table in problem.tables.all.iter() {
        for column in problem.tables.columns_of(*table) {
            let mut numbers = Vec::new(alloc);
            for price in part(&ascent.columns, column.start, column.end) {
                numbers.push(price.number)?;
            }
            push_cut(
                alloc,
                table.constraint,
                column.number,
                column.low,
                &numbers,
                items,
            )?;
        }
    }
    Ok(())
}

/// The prices of the column, where they are not all 0, from the first that is not 0 to the last one.
fn push_cut(
    alloc: Global,
    constraint: u64,
    column: u64,
    low: i64,
    numbers: &[i64],
    items: &mut Items<RowItem>,
) -> Result<(), Memory> {
    let (first, end) = ends_of(numbers);
    if end <= first {
        return Ok(());
    }
    let mut prices = Items::new(alloc);
    for number in numbers.iter().take(end).skip(first) {
        prices.push(*number)?;
    }
    items.push(RowItem::Columns {
        constraint,
        column,
        low: low.saturating_add(i64::try_from(first).unwrap_or(0)),
        prices,
    })?;
    Ok(())
}

/// The place of the first number that is not 0, and the place behind the last one; where all are 0 no place lies between them.
fn ends_of(numbers: &[i64]) -> (usize, usize) {
    let mut first = 0usize;
    let mut end = 0usize;
    let mut place = 0usize;
    for number in numbers {
        if *number != 0 {
            if end == 0 {
                first = place;
            }
            end = place.saturating_add(1);
        }
        place = place.saturating_add(1);
    }
    (first, end)
}

/// The moves to one variable. By a table they go to its rows, and from there all together to the column in which no number stands twice.
fn push_moves(
    alloc: Global,
    problem: &Problem,
    ascent: &Ascent,
    items: &mut Items<RowItem>,
) -> Result<(), Memory> {
    let mut paid = Vec::new(alloc);
    let mut place = 0usize;
    for (one, is_moving) in problem
        .moves
        .all
        .iter()
        .zip(ascent.lagrangian.moving.iter())
    {
        place = place.saturating_add(1);
        if *is_moving {
            items.push(moved(*one))?;
            if one.column.is_some() {
                pay(problem, ascent, *one, &mut paid)?;
            }
        }
        if let Some(column) = one.column
            && !is_by(problem, place, one.constraint)
        {
            push_cut(alloc, one.constraint, column, one.first(), &paid, items)?;
            paid.clear();
        }
    }
    Ok(())
}

/// The item by which the variable moves.
fn moved(one: Move) -> RowItem {
    let constraint = one.constraint;
    let variable = VarId(one.value.saturating_add(1));
    match one.column {
        None => RowItem::Move {
            constraint,
            variable,
        },
        Some(_) => RowItem::Rows {
            constraint,
            variable,
        },
    }
}

/// Whether the move at this place is by the constraint of this number.
fn is_by(problem: &Problem, place: usize, constraint: u64) -> bool {
    match problem.moves.all.get(place) {
        Some(one) => one.constraint == constraint,
        None => false,
    }
}

/// Takes what went to the rows by the move from the prices of the entries that they have in the column to which it goes.
fn pay(problem: &Problem, ascent: &Ascent, one: Move, prices: &mut Vec<i64>) -> Result<(), Memory> {
    let is_first = prices.is_empty();
    let mut place = one.start;
    let mut distance = 0usize;
    for entry in problem.moves.entries_of(one) {
        let price = if *entry == NO_ENTRY {
            BARRED
        } else {
            ascent.lagrangian.moved_at(place).saturating_neg()
        };
        if is_first {
            prices.push(price)?;
        } else if let Some(before) = prices.get_mut(distance)
            && *entry != NO_ENTRY
        {
            *before = before.saturating_add(price);
        }
        place = place.saturating_add(1);
        distance = distance.saturating_add(1);
    }
    Ok(())
}

/// The moves by inverses.
fn push_exchanges(
    problem: &Problem,
    ascent: &Ascent,
    items: &mut Items<RowItem>,
) -> Result<(), Memory> {
    let exchanging = ascent.lagrangian.exchanging.iter();
    for (one, is_moving) in problem.moves.exchanges.all.iter().zip(exchanging) {
        if *is_moving {
            items.push(RowItem::Move {
                constraint: one.constraint,
                variable: VarId(one.variable.saturating_add(1)),
            })?;
        }
    }
    Ok(())
}

/// The variables that go to the rows of tables.
fn push_givers(
    problem: &Problem,
    ascent: &Ascent,
    items: &mut Items<RowItem>,
) -> Result<(), Memory> {
    let mut place = 0usize;
    for table in problem.tables.all.iter() {
        for variable in problem.tables.givers_of(*table) {
            if ascent.lagrangian.giving.get(place).copied() == Some(true) {
                items.push(RowItem::Rows {
                    constraint: table.constraint,
                    variable: VarId(variable.saturating_add(1)),
                })?;
            }
            place = place.saturating_add(1);
        }
    }
    Ok(())
}
