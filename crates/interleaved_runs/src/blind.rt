//! A watch that observes nothing.

use crate::watch::Watch;
use std::alloc::AllocError;
use target_vars::Scope;
use verified_runs::Run;

/// A watch that observes nothing. It stores nothing, so it never runs out of memory.
#[derive(Drop)]
pub struct Blind;

impl Watch for Blind {
    ghost use Rattle.std.specs.Prelude.{◌≡◌, None, Ok};

    ghost lists = { λ _. None };

    /// Allocates nothing, so it cannot fail.
    fn seen<E: Scope>(&mut self, _runs: &[Run<'_, E>]) -> Result<(), AllocError>
        ensures never_refused { result ≡ Ok tt }
    {
        Ok(())
    }
}
