//! A budget, and the two bounds that it gives.

ghost use Rattle.std.specs.Prelude.{◌≡◌, ◌+◌, ◌*◌, ◌^◌, ◌<◌, ◌≤◌};
ghost use Rattle.machine_model.specs.Budget.{steps_bound, bytes_bound};
ghost use Rattle.budget.specs.Small.{IsSmall};
ghost use Rattle.budget.specs.Private.Shares.{plus_outside, plus_inside, plus_element};

use crate::share::Share;
use std::marker::Model;

/// Six sums over the instructions of a code. Together with the number of members and of bytes of an environment they
/// bound each run of the code on it. [`crate::budget_of`] computes them.
#[derive(Clone, Copy, Debug, PartialEq, Eq)]
pub struct Budget {
    /// Steps that do not depend on the environment: at most 4,096.
    pub s0: u64,
    /// Steps, for each member of all lists: at most 4,096.
    pub s1: u64,
    /// Bytes of output that do not depend on the environment: below 2^30.
    pub o0: u64,
    /// Bytes of output, for each member: below 2^30.
    pub o1: u64,
    /// Bytes of output, for each byte of the environment: at most 12,288.
    pub o2: u64,
    /// Bytes of output, for each member and each byte: at most 12,288.
    pub o3: u64,
}

impl Model for Budget {
    ghost use Rattle.machine_model.specs.Budget as budget;

    ghost Value = { budget.Sums };

    ghost use Rattle.budget.specs.Small.{IsSmall};

    ghost view = { λ b. record { s0 = b.s0; s1 = b.s1; o0 = b.o0; o1 = b.o1; o2 = b.o2; o3 = b.o3 } };

    ghost invariant = { λ b. IsSmall (record { s0 = b.s0; s1 = b.s1; o0 = b.o0; o1 = b.o1; o2 = b.o2; o3 = b.o3 }) };

    ghost inverse = { λ b. record { s0 = b.s0; s1 = b.s1; o0 = b.o0; o1 = b.o1; o2 = b.o2; o3 = b.o3 } };
}

impl Budget {
    /// The maximum number of steps of a run if all lists of the environment have `members` members together, which is
    /// at most 65,535.
    pub fn steps(&self, members: u64) -> u64
        requires { members ≤ 65535 }
        ensures value { result ≡ steps_bound self.now members }
        ensures below { result < 2 ^ 52 }
    {
        self.s0 + self.s1 * members
    }

    /// The maximum number of bytes that a run prints if all lists of the environment have `members` members together,
    /// and all its texts and members have `bytes` bytes, which is at most 1,048,576.
    pub fn bytes(&self, members: u64, bytes: u64) -> u64
        requires members { members ≤ 65535 }
        requires bytes { bytes ≤ 1048576 }
        ensures value { result ≡ bytes_bound self.now members bytes }
        ensures below { result < 2 ^ 52 }
    {
        self.o0 + self.o1 * members + self.o2 * bytes + self.o3 * (members * bytes)
    }

    /// Adds the share of an instruction outside all loops.
    pub(crate) fn add_outside(&mut self, share: Share)
        requires { IsSmall (plus_outside self.old share) }
        ensures { self.new ≡ plus_outside self.old share }
    {
        self.s0 += 1;
        self.o0 += share.fixed;
        self.o2 += share.written;
    }

    /// Adds the share of an instruction in the body of a loop.
    pub(crate) fn add_inside(&mut self, share: Share)
        requires { IsSmall (plus_inside self.old share) }
        ensures { self.new ≡ plus_inside self.old share }
    {
        self.s1 += 1;
        self.o1 += share.fixed + share.separator;
        self.o3 += share.written;
    }

    /// Adds the share of a PUT or CUT that prints the element of its loop. A loop is entered at most once, its body
    /// runs once for each member of one list, and the members of all lists together have no more bytes than the
    /// environment.
    pub(crate) fn add_element(&mut self, share: Share)
        requires { IsSmall (plus_element self.old share) }
        ensures { self.new ≡ plus_element self.old share }
    {
        self.s1 += 1;
        self.o2 += share.written;
    }
}
