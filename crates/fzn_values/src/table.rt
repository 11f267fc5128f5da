// Rows of a table.
ghost use Rattle.std.specs.Prelude.{◌↔◌, ◌≡◌, ◌*◌, ◌+◌, ◌<◌, ◌≤◌, IsTrue, IfOk, length};
ghost use Rattle.fzn_values.specs.Table.{row_at, IsTable};
ghost use Rattle.fzn_values.specs.Term.{numbers_in};

use crate::entries::Entries;
use crate::term::Term;
use fzn_domain::Memory;
use fzn_list::Shared;
use std::marker::Model;

/// The numbers of a table's rows, one row after another, which contracts see as the list of numbers. The list may have other owners.
#[derive(Drop)]
pub struct Rows {
    terms: Shared<Term>,
}

impl Model for Rows {
    ghost use Rattle.std.specs.Prelude.{ℤ, List};
    ghost use Rattle.std.specs.Coded.{coded_list, coded_ℤ};
    ghost use Rattle.fzn_values.specs.Term.{numbers_in};

    ghost Value = { List ℤ };

    ghost coded = { coded_list coded_ℤ };

    ghost view = { λ it. numbers_in it.terms };
}

impl Rows {
    /// The numbers that these constants are. A variable counts as 0.
    pub fn new(terms: Shared<Term>) -> Rows
        ensures { result ≡ numbers_in terms }
    {
        Rows { terms }
    }

    /// The same rows for one more owner. Nothing of them is copied. It answers `Err` only where no further owner can be counted.
    pub fn share(&self) -> Result<Rows, Memory>
        ensures { IfOk result (λ rows. rows ≡ self.now) }
    {
        let terms = self.terms.share()?;
        Ok(Rows { terms })
    }

    /// The constants, one row after another.
    pub fn constants(&self) -> &[Term]
        ensures { numbers_in result.now ≡ self.now }
    {
        self.terms.as_slice()
    }
}

pub fn is_table(places: &Entries, rows: &[Term]) -> bool
    requires nonempty { 0 < length places.now }
    ensures { IsTrue result ↔ IsTable places.now (numbers_in rows.now) }
{
    for row in 0..rows.len() / places.len() {
        if is_row(places, rows, row) {
            return true;
        }
    }
    false
}

pub fn is_row(places: &Entries, rows: &[Term], row: usize) -> bool
    requires within { row * length places.now + length places.now ≤ length rows.now }
    ensures { IsTrue result ↔ (row_at (length places.now) (numbers_in rows.now) row ≡ places.now) }
{
    let start = row * places.len();
    for place in 0..places.len() {
        if rows[start + place].number() != places.get(place) {
            return false;
        }
    }
    true
}
