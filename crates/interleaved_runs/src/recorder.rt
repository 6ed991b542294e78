//! A watch that records what it observed.

ghost use Rattle.std.specs.Prelude.{◌≡◌, [], map};

use crate::watch::Watch;
use std::alloc::{AllocError, Global};
use std::marker::Model;
use target_vars::Scope;
use verified_runs::Run;

/// A watch that records, each time, how many steps each run has carried out. Contracts see these lists, in their order.
#[derive(Drop)]
pub struct Shown {
    alloc: Global,
    lists: Vec<Vec<u64>>,
}

impl Model for Shown {
    ghost use Rattle.std.specs.Prelude.{ℕ, List, map};

    ghost Value = { List (List ℕ) };

    ghost view = { λ observed. map (λ list. list.items) observed.lists.items };
}

impl Shown {
    /// A watch that has observed nothing yet. It allocates nothing.
    pub fn new(alloc: Global) -> Shown
        ensures { result ≡ [] }
    {
        Shown {
            alloc,
            lists: Vec::new(alloc),
        }
    }

    /// What it has recorded: for each observation, the steps of each run.
    pub fn lists(&self) -> &[Vec<u64>]
        ensures { map (λ list. list.items) result.now ≡ self.now }
    {
        self.lists.as_slice()
    }
}

impl Watch for Shown {
    ghost use Rattle.std.specs.Prelude.{Some};

    ghost lists = { λ observed. Some observed };

    fn seen<E: Scope>(&mut self, runs: &[Run<'_, E>]) -> Result<(), AllocError> {
        let steps = runs
            .iter()
            .map(|run| run.steps())
            .collect::<Vec<u64>>(self.alloc)?;
        self.lists.push(steps)?;
        Ok(())
    }
}
