// The claims on the terms of a task.
ghost use Rattle.std.specs.Prelude.{◌≡◌, ◌<◌, length};
ghost use Rattle.std.specs.List.{All};
ghost use Rattle.fzn_terms.specs.Denied.{IsNear, IsSayable};
ghost use Rattle.fzn_cumulative.specs.Claims.{task_claims};
ghost use Rattle.fzn_cumulative.specs.Loads.{start_at, duration_at, uses_at};
ghost use Rattle.fzn_cumulative.specs.Passes.{tasks_of};

use crate::pass::Pass;
use fzn_terms::Claim;

/// Where `task_claims` has the claim on the latest start of the task.
pub(crate) const LATEST: usize = 0;
/// Where it has the one on the earliest start.
pub(crate) const EARLIEST: usize = 1;
/// Where it has the one on the duration.
pub(crate) const SHORTEST: usize = 2;
/// Where it has the one on the use.
pub(crate) const LEAST: usize = 3;

/// That the task at place k, counted from 0, starts at these times at the latest and at the earliest, lasts so long and uses so much at
/// least.
pub fn task_claims(
    pass: &Pass,
    k: usize,
    latest: i64,
    earliest: i64,
    shortest: i64,
    least: i64,
) -> [Claim; 4]
    requires place { k < length pass.now.starts.now }
    requires latest { IsNear latest }
    requires earliest { IsNear earliest }
    requires shortest { IsNear shortest }
    requires least { IsNear least }
    ensures value { result ≡ task_claims (start_at (tasks_of pass.now) k) (duration_at (tasks_of pass.now) k) (uses_at (tasks_of pass.now) k) latest earliest shortest least }
    ensures sayable { All (IsSayable (length pass.now.trail.now.declared)) result }
{
    [
        Claim::at_most(pass.start(k), latest),
        Claim::at_least(pass.start(k), earliest),
        Claim::at_least(pass.duration(k), shortest),
        Claim::at_least(pass.uses(k), least),
    ]
}
