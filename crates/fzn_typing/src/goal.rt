// The goal of a file.
ghost use Rattle.std.specs.Prelude.{◌≡◌, Some};
ghost use Rattle.fzn_names.specs.Given.{Gives};
ghost use Rattle.fzn_names.specs.Known.{known};
ghost use Rattle.fzn_typing.specs.Faults.{objective_of, objective_faults, goal_faults};
ghost use Rattle.fzn_typing.specs.Models.{goal_of};

use fzn_domain::VarId;
use fzn_lexer::{Fault, FaultKind, Halt};
use fzn_meaning::Kind;
use fzn_names::{Declared, Names, position_of};
use fzn_tree::{Basic, Goal};

/// The integer variable that is named.
fn objective_of(names: &Names, basic: &Basic) -> Result<VarId, Halt<Fault>>
    ensures { Gives (objective_faults (known names.now) basic.now)
        (λ var. objective_of (known names.now) basic.now ≡ Some var) result }
{
    match basic {
        Basic::Literal(_) => Err(Halt::Fault(Fault {
            kind: FaultKind::Type,
            position: position_of(basic),
        })),
        Basic::Name(name) => match names.meaning(&name.text) {
            None => Err(Halt::Fault(Fault {
                kind: FaultKind::UnknownName,
                position: name.position,
            })),
            Some(Declared::Variable(Kind::Integer, var)) => Ok(*var),
            Some(_) => Err(Halt::Fault(Fault {
                kind: FaultKind::Type,
                position: name.position,
            })),
        },
    }
}

/// The goal, or its fault: a name that is not declared, or what is no integer variable.
pub fn goal_of(names: &Names, goal: &Goal) -> Result<fzn_meaning::Goal, Halt<Fault>>
    ensures { Gives (goal_faults (known names.now) goal.now)
        (λ found. goal_of (known names.now) goal.now ≡ Some found) result }
{
    match goal {
        Goal::Satisfy => Ok(fzn_meaning::Goal::Satisfy),
        Goal::Minimize(basic) => Ok(fzn_meaning::Goal::Minimize(objective_of(names, basic)?)),
        Goal::Maximize(basic) => Ok(fzn_meaning::Goal::Maximize(objective_of(names, basic)?)),
    }
}
