// What the propagator of a row waits for.
ghost use Rattle.std.specs.Prelude.{◌≡◌};
ghost use Rattle.fzn_separable.specs.Propagator.{event_of};

use fzn_meaning::VariablePart;
use fzn_propagator::Event;

/// Which change of the part's variable can raise what it weighs at least.
pub(crate) fn event_of(part: &VariablePart) -> Event
    ensures { result ≡ event_of part.now }
{
    match &part.listed {
        Some(_) => Event::Any,
        None if part.coefficient < 0 => Event::High,
        None => Event::Low,
    }
}
