// Constraints by their numbers.
ghost use Rattle.std.specs.Prelude.{◌≡◌, option_copied};
ghost use Rattle.fzn_cited.specs.Cited.{constraint_at};

use fzn_meaning::Constraint;

/// The constraint with this number, counted from 1, where there is one.
pub fn constraint_at(given: &[Constraint], id: u64) -> Option<&Constraint>
    ensures { option_copied result ≡ constraint_at given.now id }
{
    if id == 0 || id > given.len() as u64 {
        return None;
    }
    Some(&given[(id - 1) as usize])
}
