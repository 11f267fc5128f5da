// Two lists that lead back from one another's places.
ghost use Rattle.std.specs.Prelude.{◌↔◌, ◌≡◌, IsTrue, length};
ghost use Rattle.std.specs.List.{All};
ghost use Rattle.fzn_values.specs.Entries.{IsIndex};
ghost use Rattle.fzn_values.specs.Inverse.{IsInverse, LeadsBack};

use crate::entries::Entries;

pub fn is_inverse(forward: &Entries, backward: &Entries) -> bool
    requires same_length { length backward.now ≡ length forward.now }
    ensures { IsTrue result ↔ IsInverse forward.now backward.now }
{
    if !forward.are_indices(forward.len()) || !backward.are_indices(backward.len()) {
        return false;
    }
    leads_back(forward, backward) && leads_back(backward, forward)
}

fn leads_back(from: &Entries, back: &Entries) -> bool
    requires places { All (IsIndex (length back.now)) from.now }
    ensures { IsTrue result ↔ LeadsBack from.now back.now }
{
    for place in 0..from.len() {
        if back.at(from.get(place)) as i128 != place as i128 + 1 {
            return false;
        }
    }
    true
}
