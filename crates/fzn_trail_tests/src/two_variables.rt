// Two variables x and y that go from 0 to 9.
ghost use Rattle.std.specs.Prelude.{◌≡◌, pos, [], ◌∷◌, IfOk, length};
ghost use Rattle.fzn_domain.specs.IntSet.{range};
ghost use Rattle.fzn_trail.specs.Levels.{fresh};

use fzn_domain::{Domain, Memory};
use fzn_trail::Trail;
use std::alloc::Global;

pub(crate) fn trail_of(alloc: Global) -> Result<Trail, Memory>
    ensures fresh { IfOk result (λ trail. trail ≡ fresh (range (pos 0) (pos 9) ∷ range (pos 0) (pos 9) ∷ [])) }
    ensures two { IfOk result (λ trail. length trail.declared ≡ 2) }
{
    let mut declared = Vec::new(alloc);
    declared.push(Domain::range(alloc, 0, 9)?)?;
    declared.push(Domain::range(alloc, 0, 9)?)?;
    let trail = Trail::new(alloc, declared)?;
    Ok(trail)
}
