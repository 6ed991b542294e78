//! The entries of several hashes, read row after row.

ghost use Rattle.std.specs.Prelude.{◌≡◌, ◌≤◌, ◌<◌, [], get_or, length};
ghost use Rattle.kbart_rows.specs.Hashing.{hash_of};
ghost use Rattle.kbart_rows.specs.Private.Index as spec;
ghost use Rattle.kbart_rows.specs.Private.Kept.{lesser_of};

use crate::ids::Ids;
use crate::index::{Entry, Index, half_of};
use crate::keys::Keys;

/// A place in the entries of an index, from which on those of one hash are to be read.
#[derive(Clone, Copy)]
pub(crate) struct Run {
    pub(crate) hash: u32,
    pub(crate) at: usize,
}

/// Three runs through the entries of an index.
#[derive(Clone, Copy)]
pub(crate) struct Runs<'a> {
    pub(crate) entries: &'a [Entry],
    pub(crate) first: Run,
    pub(crate) second: Run,
    pub(crate) third: Run,
}

impl Run {
    /// The run of an identifier, counted from 0, from this row on; one at the end, if there are not that many.
    fn of(index: &Index, keys: &Keys, ids: &Ids, at: usize, row: u32) -> Run
        ensures few { length ids.now ≤ 3 }
        ensures ahead { at < length ids.now
            → spec.IsAhead index.now row (spec.half_of (hash_of keys.now (get_or ids.now at []))) result }
    {
        let Some(hash) = ids.hash(at, keys) else {
            return Run {
                hash: 0,
                at: usize::MAX,
            };
        };
        let hash = half_of(hash);
        Run {
            hash,
            at: index.place(hash, row),
        }
    }

    /// The row that the run has reached.
    fn head(&self, entries: &[Entry]) -> Option<usize>
        ensures { result ≡ spec.head_of entries.now self.now }
    {
        match entries.get(self.at) {
            Some(entry) if entry.hash == self.hash => Some(entry.row as usize),
            _ => None,
        }
    }

    /// Moves on, if the run has reached this row.
    fn pass(&mut self, entries: &[Entry], row: usize)
        ensures { self.new ≡ spec.passed entries.now row self.old }
    {
        if self.head(entries) == Some(row) {
            self.at += 1;
        }
    }
}

impl<'a> Runs<'a> {
    ghost use Rattle.kbart_rows.specs.Private.Runs.{AreAhead, least};

    /// Runs through an index with these keys, one for each identifier, from this row on.
    pub(crate) fn of(index: &'a Index, keys: &Keys, ids: &Ids, from: usize) -> Runs<'a>
        ensures entries { result.entries.now ≡ index.now }
        ensures order { spec.IsOrdered index.now }
        ensures small { spec.AreSmall index.now }
        ensures few { length ids.now ≤ 3 }
        ensures ahead { AreAhead keys.now ids.now from result }
    {
        let row = from.min(u32::MAX as usize) as u32;
        Runs {
            entries: index.as_slice(),
            first: Run::of(index, keys, ids, 0, row),
            second: Run::of(index, keys, ids, 1, row),
            third: Run::of(index, keys, ids, 2, row),
        }
    }

    /// The least row that a run has reached.
    pub(crate) fn least(&self) -> Option<usize>
        ensures { result ≡ least self.now }
    {
        let first = self.first.head(self.entries);
        let second = self.second.head(self.entries);
        let third = self.third.head(self.entries);
        lesser(lesser(first, second), third)
    }

    /// Moves on each run that has reached this row.
    pub(crate) fn pass(&mut self, row: usize)
        ensures entries { self.new.entries ≡ self.old.entries }
        ensures first { self.new.first ≡ spec.passed self.old.entries.now row self.old.first }
        ensures second { self.new.second ≡ spec.passed self.old.entries.now row self.old.second }
        ensures third { self.new.third ≡ spec.passed self.old.entries.now row self.old.third }
    {
        self.first.pass(self.entries, row);
        self.second.pass(self.entries, row);
        self.third.pass(self.entries, row);
    }
}

/// The smaller of two rows, each of which may be missing.
fn lesser(a: Option<usize>, b: Option<usize>) -> Option<usize>
    ensures { result ≡ lesser_of a b }
{
    match (a, b) {
        (Some(a), Some(b)) => Some(a.min(b)),
        (Some(row), None) | (None, Some(row)) => Some(row),
        (None, None) => None,
    }
}
