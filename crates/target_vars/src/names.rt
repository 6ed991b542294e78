//! The names of an environment, and the search for a name.

ghost use Rattle.std.specs.Prelude.{◌≡◌, [], ◌∷◌, ◌++◌, length, slice_get, slice_index_or, OnOk, OnErr, MatchResult};
ghost use Rattle.target_vars.specs.Private.NamesValue.{IsGap, Separates};

mod forks;

use crate::names::forks::{Branch, Fork, put_fork, search};
use crate::room::{FIRST_BYTES, FIRST_NAMES, reserve_items};
use std::alloc::{AllocError, Global};
use std::marker::Model;

/// Where a name is among the bytes of all names.
#[derive(Clone, Copy)]
pub(crate) struct NamePlace {
    start: usize,
    end: usize,
}

/// Names, each once, numbered from 0 in the order in which they were added. Their bytes are one after another in one
/// buffer.
///
/// The search for a name follows forks, as in a crit-bit tree. Each fork tests one bit of the name, and the last one
/// leaves a single candidate. A search never tests a bit twice, so it takes at most nine steps for each byte of the
/// longest name; usually it takes a few more than the logarithm of the number of names, in whatever order they were
/// added.
#[derive(Drop)]
pub(crate) struct Names {
    bytes: Vec<u8>,
    places: Vec<NamePlace>,
    forks: Vec<Fork>,
}

impl Model for Names {
    ghost use Rattle.target_vars.specs.Private.NamesValue.{NamesValue};

    ghost Value = { NamesValue };

    ghost use Rattle.target_vars.specs.Private.NamesValue.{placed_names, AreNames};

    ghost view = { λ n. record { listed = placed_names n.bytes.items n.places.items; forks = n.forks.items } };

    ghost invariant = { λ n. AreNames n.bytes.items n.places.items n.forks.items };
}

impl Names {
    pub(crate) fn new(alloc: Global) -> Names
        ensures { result.listed ≡ [] }
    {
        Names {
            bytes: Vec::new(alloc),
            places: Vec::new(alloc),
            forks: Vec::new(alloc),
        }
    }

    /// How many names there are.
    pub(crate) fn len(&self) -> usize
        ensures { result ≡ length self.now.listed }
    {
        self.places.len()
    }

    /// The bytes of the name with this number; no bytes past the last one.
    fn get(&self, number: usize) -> &[u8]
        ensures { result.now ≡ slice_index_or self.now.listed number [] }
    {
        match self.places.get(number) {
            Some(place) => &self.bytes[place.start..place.end],
            None => &[],
        }
    }

    /// The number of the name, or else its gap: the fork at which the search for it ends.
    pub(crate) fn find(&self, name: &str) -> Result<usize, usize>
        ensures { MatchResult result (λ number. slice_get self.now.listed number ≡ Some name.now)
            (IsGap self.now name.now) }
    {
        let name = name.as_bytes();
        if self.forks.is_empty() {
            return Err(0);
        }
        let (last, number) = search(&self.forks, name);
        if self.get(number) == name {
            Ok(number)
        } else {
            Err(last)
        }
    }

    /// The fork for a new name.
    fn fork_of(&self, name: &[u8], gap: usize) -> Fork
        requires { IsGap self.now name.now gap }
        ensures { Separates self.now name.now gap result }
    {
        let Some(last) = self.forks.get(gap) else {
            return Fork::of_first();
        };
        match last.branch(name) {
            Branch::Ends(number) => Fork::between(name, self.len(), self.get(number), number),
            Branch::Further(_) => unreachable!(),
        }
    }

    /// Adds the name as the last one, at its gap.
    pub(crate) fn add(&mut self, name: &str, gap: usize) -> Result<(), AllocError>
        requires { IsGap self.old name.now gap }
        ensures ok { OnOk result (self.new.listed ≡ self.old.listed ++ name.now ∷ []) }
        ensures err { OnErr result (self.new.listed ≡ self.old.listed) }
    {
        let fork = self.fork_of(name.as_bytes(), gap);
        reserve_items(&mut self.bytes, name.len(), FIRST_BYTES)?;
        reserve_items(&mut self.places, 1, FIRST_NAMES)?;
        reserve_items(&mut self.forks, 1, FIRST_NAMES)?;
        put_fork(&mut self.forks, name.as_bytes(), gap, fork);
        let start = self.bytes.len();
        self.bytes.extend_from_slice(name.as_bytes()).unwrap();
        self.places.push_reserved(NamePlace {
            start,
            end: self.bytes.len(),
        });
        Ok(())
    }
}
