// The items by which a row is derived.
use fzn_cited::Multiple;
use fzn_domain::VarId;
use fzn_list::Items;

/// What is added to a row. Each constraint is named by its number, counted from 1.
#[derive(Debug, Drop)]
pub enum RowItem {
    /// The forms of constraints, each times its multiplier.
    Multiples(Items<Multiple>),
    /// Prices of the values of the places of an all different or of a circuit, or of the first list of an inverse, and what these places
    /// cost at the most.
    Prices {
        /// The number of the constraint.
        constraint: u64,
        /// The number that has the first price, from -10^9 to 10^9; 1 for a circuit and an inverse.
        low: i64,
        /// The price of it, and of each number behind it: at most 65,536, each from -10^12 to 10^12, where they are to be taken; as many
        /// as places for a circuit and an inverse. Each value that a place of an all different is declared to have needs one.
        prices: Items<i64>,
    },
    /// What a variable weighs moves to others whose values decide its own.
    Move {
        /// The number of the constraint: one by which another variable decides this one, that is the index of an element of constants,
        /// the only variable of a sum with a switch, or the other variable of an equation, and is declared to have a value, and at most
        /// 65,536 numbers from its least value to its greatest; or an inverse of at most 65,536 places, where the place of one list is i
        /// exactly where place i of the other is its number.
        constraint: u64,
        /// The value of the element, the switch, or a variable of the equation; or a variable at a place of the inverse: of its places the
        /// first in the second list counts, and where it has none there the first in the first. What it weighed is taken from it before
        /// anything is added.
        variable: VarId,
    },
    /// Prices of the entries of one column of a table: each row weighs the price of its entry more, and each value of the variable that
    /// stands at the column weighs its price less.
    Columns {
        /// The number of the constraint, a table. As many weights are listed as it has rows, each time.
        constraint: u64,
        /// The number of the column, counted from 1. Where a variable stands there, it is declared to have a value, and at most 65,536
        /// numbers from its least value to its greatest.
        column: u64,
        /// The number that has the first price, from -10^9 to 10^9.
        low: i64,
        /// The price of it, and of each number behind it: at most 65,536, each from -10^12 to 10^12, where they are to be taken. Every
        /// other number has the price 0.
        prices: Items<i64>,
    },
    /// What a variable weighs goes to the rows of a table at which it stands: each row weighs as much more as the variable does at the
    /// row's entry, and is barred where that is barred.
    Rows {
        /// The number of the constraint, a table. As many weights are listed as it has rows, each time.
        constraint: u64,
        /// A variable at a place of the table, of which the first counts. It weighs nothing afterwards.
        variable: VarId,
    },
}
