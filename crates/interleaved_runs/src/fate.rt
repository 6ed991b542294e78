//! How a code ends on an environment.

ghost use Rattle.std.specs.Prelude.{◌≡◌};
ghost use Rattle.verified_runs.specs.RunValue.{outcome_value};
ghost use Rattle.verified_runs.specs.Fates.{ended};
ghost use Rattle.interleaved_runs.specs.Fates.{fate_value};

use verified_runs::Outcome;

/// How a code ends on an environment.
#[derive(Debug, Drop)]
pub enum Fate {
    /// The bound on the run's output in bytes, if it exceeds [`MAX_LINK_BYTES`](verified_runs::MAX_LINK_BYTES). The
    /// run is not started.
    OverBudget(u64),
    /// The run ends with this link, which is URI text (RFC 3986, sections 2.1 to 2.3).
    Link(String),
    /// The run ends without a link.
    NoLink,
}

impl Fate {
    pub(crate) fn of(outcome: Outcome) -> Fate
        ensures { fate_value result ≡ ended (outcome_value outcome) }
    {
        match outcome {
            Outcome::Link(link) => Fate::Link(link),
            Outcome::NoLink => Fate::NoLink,
        }
    }
}
