// One cycle through all places.
ghost use Rattle.std.specs.Prelude.{◌↔◌, ◌≡◌, IsTrue, length};
ghost use Rattle.std.specs.List.{All};
ghost use Rattle.fzn_values.specs.Entries.{IsIndex};
ghost use Rattle.fzn_values.specs.Circuit.{IsCircuit, ReturnsLast};

use crate::entries::Entries;

/// Whether the successors lead through all places in one cycle, by one walk along them.
pub fn is_circuit(successors: &Entries) -> bool
    ensures { IsTrue result ↔ IsCircuit successors.now }
{
    successors.are_indices(successors.len()) && returns_last(successors)
}

fn returns_last(successors: &Entries) -> bool
    requires { All (IsIndex (length successors.now)) successors.now }
    ensures { IsTrue result ↔ ReturnsLast successors.now }
{
    let mut place: i64 = 1;
    for step in 0..successors.len() {
        place = successors.at(place);
        if place == 1 {
            return step + 1 == successors.len();
        }
    }
    successors.len() == 0
}
