//! What the identifiers of each row have in common with other rows, by their hashes.

ghost use Rattle.std.specs.Prelude.{◌≡◌, ℕ, ◌-◌, ◌≤◌, ◌<◌, ◌≢◌, IfOk, get_or, length};
ghost use Rattle.kbart_rows.specs.Private.Groups as spec;
ghost use Rattle.kbart_rows.specs.Private.Index.{AreSmall, IsOrdered};
ghost use Rattle.kbart_rows.specs.declared.index.Entry.{Entry};
ghost use Rattle.kbart_rows.specs.declared.sharing.Sharing.{Sharing};

use crate::index::Entry;
use std::alloc::{AllocError, Global};

/// What the identifiers of a row have in common with other rows at most: none of them has a row before `first`, or more
/// than `rows` rows. Rows are counted from 0.
#[derive(Clone, Copy)]
pub struct Sharing {
    pub first: usize,
    pub rows: usize,
}

/// What is noted of that many rows, which have these entries: of each the first row and the number of the entries with
/// its hash.
pub(crate) fn sharing_of(
    alloc: Global,
    entries: &[Entry],
    rows: usize,
) -> Result<Vec<Sharing>, AllocError>
    requires order { IsOrdered entries.now }
    requires small { AreSmall entries.now }
    ensures count { IfOk result (λ notes. length notes.items ≡ rows) }
    ensures noted { IfOk result (λ notes. spec.AreNoted entries.now (length entries.now) notes.items) }
{
    let mut notes = unshared(alloc, rows)?;
    note_groups(entries, notes.as_mut_slice());
    Ok(notes)
}

/// Notes of rows that share nothing.
fn unshared(alloc: Global, rows: usize) -> Result<Vec<Sharing>, AllocError>
    ensures count { IfOk result (λ notes. length notes.items ≡ rows) }
    ensures fresh { IfOk result (λ notes. spec.AreFresh notes.items) }
{
    let mut notes = Vec::with_capacity(alloc, rows)?;
    for row in 0..rows {
        notes.push(Sharing {
            first: row,
            rows: 1,
        })?;
    }
    Ok(notes)
}

/// Notes the groups of entries that have the same hash. A group of one entry says nothing.
fn note_groups(entries: &[Entry], notes: &mut [Sharing])
    requires order { IsOrdered entries.now }
    requires small { AreSmall entries.now }
    requires fresh { spec.AreFresh notes.old }
    ensures count { length notes.new ≡ length notes.old }
    ensures noted { spec.AreNoted entries.now (length entries.now) notes.new }
{
    let mut start = 0;
    while start < entries.len() {
        let end = group_end(entries, start);
        if end - start > 1 {
            note_group(entries, start, end, notes);
        }
        start = end;
    }
}

/// Where the group that starts at an entry ends.
fn group_end(entries: &[Entry], start: usize) -> usize
    requires { start < length entries.now }
    ensures within { (start < result) × (result ≤ length entries.now) }
    ensures same { (k : ℕ) (d : Entry) → start ≤ k → k < result
        → (get_or entries.now k d).hash ≡ (get_or entries.now start d).hash }
    ensures ends { (d : Entry) → result < length entries.now
        → (get_or entries.now result d).hash ≢ (get_or entries.now start d).hash }
{
    let mut end = start + 1;
    while end < entries.len() && entries[end].hash == entries[start].hash {
        end += 1;
    }
    end
}

/// Notes the group of the entries from `start` to `end` at each of its rows.
fn note_group(entries: &[Entry], start: usize, end: usize, notes: &mut [Sharing])
    requires some { start < end }
    requires within { end ≤ length entries.now }
    ensures looser { spec.AreLooser notes.old notes.new }
    ensures noted { (k : ℕ) (d : Entry) → start ≤ k → k < end
        → spec.IsAtLeast notes.new (get_or entries.now k d).row (get_or entries.now start d).row (end - start) }
{
    let first = entries[start].row as usize;
    for at in start..end {
        note(notes, entries[at].row as usize, first, end - start);
    }
}

/// Notes a first row and a number of rows at a row, if there is such a row.
fn note(notes: &mut [Sharing], row: usize, first: usize, rows: usize)
    ensures looser { spec.AreLooser notes.old notes.new }
    ensures noted { spec.IsAtLeast notes.new row first rows }
{
    if row < notes.len() {
        let old = notes[row];
        notes[row] = Sharing {
            first: old.first.min(first),
            rows: old.rows.max(rows),
        };
    }
}
