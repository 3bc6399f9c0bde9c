//! How far the reader of a file has come.
ghost use Rattle.std.specs.Prelude.{◌≡◌};
ghost use Rattle.dsr_file.specs.inner.Allowance.{has_given_all};

use dsr_events::Outcome;

/// How far a reader has come.
#[derive(Clone, Copy)]
pub(crate) enum Phase {
    /// Lines are read, all of them good so far.
    Reading,
    /// The outcome is known and not given yet.
    Waiting(Outcome),
    /// The outcome was given.
    Done(Outcome),
}

impl Phase {
    /// Whether the outcome was given.
    pub(crate) fn is_done(self) -> bool
        ensures { result ≡ has_given_all self }
    {
        match self {
            Phase::Reading | Phase::Waiting(_) => false,
            Phase::Done(_) => true,
        }
    }
}
