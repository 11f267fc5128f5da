// What it costs to ask a propagator.

/// By this the propagators are queued: those that cost little are asked first.
#[derive(Clone, Copy, Debug, PartialEq, Eq)]
pub enum Cost {
    Small,
    Middling,
    Great,
}
