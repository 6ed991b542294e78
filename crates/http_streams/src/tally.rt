//! What a stream counts.

ghost use Rattle.std.specs.Prelude.{◌≡◌};
ghost use Rattle.http_streams.specs.Streams.{raised};

/// How many bytes a stream has moved, and how many of its calls have failed. Each count stops at its largest value.
#[derive(Clone, Copy, Debug, PartialEq, Eq)]
pub struct Tally {
    /// The number of bytes.
    pub moved: u64,
    /// The number of failed calls.
    pub failures: u64,
}

impl Tally {
    /// No bytes, and no failed call.
    pub fn new() -> Tally
        ensures { result ≡ record { moved = 0; failures = 0 } }
    {
        Tally {
            moved: 0,
            failures: 0,
        }
    }

    /// Counts the bytes that a call moved.
    #[tactic(auto, using(crate::proofs::Counts::saturated))]
    pub fn add(&mut self, bytes: usize)
        ensures { self.new ≡ record self.old { moved = raised self.old.moved bytes } }
    {
        self.moved = self.moved.saturating_add(bytes as u64);
    }

    /// Counts a failed call.
    #[tactic(auto, using(crate::proofs::Counts::saturated))]
    pub fn fail(&mut self)
        ensures { self.new ≡ record self.old { failures = raised self.old.failures 1 } }
    {
        self.failures = self.failures.saturating_add(1);
    }
}
