// Tasks whose starts, durations and uses are terms.
ghost use Rattle.std.specs.Prelude.{◌≡◌, ◌≤ℤ◌, pos, false, length};
ghost use Rattle.fzn_domain.specs.Narrow.{is_some_empty};
ghost use Rattle.fzn_domain.specs.declared.domain.TheConstants.{GREATEST_VALUE};
ghost use Rattle.fzn_rules.specs.Tasks.{least_use, IsTask};

use fzn_sets::{Sets, least_value};
use fzn_values::Term;

/// The start, the duration and the uses of a task.
#[derive(Clone, Copy)]
pub(crate) struct TaskTerms {
    pub start: Term,
    pub duration: Term,
    pub uses: Term,
}

/// What the task uses at least while it runs.
pub(crate) fn least_use(sets: &Sets, task: TaskTerms) -> i64
    requires task { IsTask (length sets.now.present) task }
    requires nonempty { is_some_empty sets.now.present ≡ false }
    ensures value { result ≡ least_use sets.now.present task }
    ensures not_negative { pos 0 ≤ℤ result }
    ensures bounded { result ≤ℤ GREATEST_VALUE }
{
    least_value(sets, task.uses).max(0)
}
