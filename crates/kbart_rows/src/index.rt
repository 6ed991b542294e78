//! The rows of each identifier, by its hash.

ghost use Rattle.std.specs.Prelude.{◌≡◌, ℕ, ◌+◌, ◌*◌, ◌≤◌, ◌<◌, ◌++◌, ◌∷◌, [], IfOk, OnOk, drop, get_or, length};
ghost use Rattle.std.specs.Option.{option_map, option_to_list};
ghost use Rattle.kbart_rows.specs.Identifiers.{identifier_in};
ghost use Rattle.kbart_rows.specs.Lines.{cells_in};
ghost use Rattle.kbart_rows.specs.Private.Index.{AreSmall, AreStarts, HasEntries, IsOrdered, bucket_of};
ghost use Rattle.kbart_rows.specs.Private.Index.{entry_for, entry_key};
ghost use Rattle.kbart_rows.specs.Private.Index as spec;
ghost use Rattle.kbart_rows.specs.declared.index.Entry.{Entry};
ghost use Rattle.kbart_rows.specs.declared.read.TheConstants.{MAX_ROWS};

use crate::cells::cell_in;
use crate::identifier::write_normal;
use crate::keys::Keys;
use crate::records::Records;
use std::alloc::{AllocError, Global};
use std::marker::Model;

/// An identifier of a row: the upper half of its hash, and the number of the row.
#[derive(Clone, Copy)]
pub(crate) struct Entry {
    pub(crate) hash: u32,
    pub(crate) row: u32,
}

impl Entry {
    /// Entries are in the order of these numbers.
    fn key(&self) -> u64
        ensures { result ≡ entry_key self.now }
    {
        key_of(self.hash, self.row)
    }
}

fn key_of(hash: u32, row: u32) -> u64
    ensures { result ≡ spec.key_of hash row }
{
    hash as u64 * 0x1_0000_0000 + row as u64
}

/// The upper half of a hash.
pub(crate) fn half_of(hash: u64) -> u32
    ensures { result ≡ spec.half_of hash }
{
    (hash >> 32) as u32
}

/// The entries of the identifiers of a table's rows, in order; contracts see these. A table has at most two for each
/// row, which take eight bytes each, and as much again for the buckets.
#[derive(Drop)]
pub(crate) struct Index {
    entries: Vec<Entry>,
    // Of each bucket of hashes, where its entries start. There is one more.
    starts: Vec<u32>,
    // A hash without this number of its lowest bits is the number of its bucket.
    shift: u32,
}

impl Model for Index {
    ghost use Rattle.std.specs.Prelude.{List};
    ghost use Rattle.kbart_rows.specs.declared.index.Entry.{Entry};
    ghost use Rattle.kbart_rows.specs.Private.Index.{IsIndex};

    ghost Value = { List Entry };

    ghost view = { λ index. index.entries.items };

    ghost invariant = { λ index. IsIndex index.shift index.entries.items index.starts.items };
}

impl Index {
    /// The index of a table's lines, of which the first is the header. `print` and `online` are the columns of
    /// identifiers.
    pub(crate) fn of(
        alloc: Global,
        lines: &Records,
        print: Option<usize>,
        online: Option<usize>,
        keys: &Keys,
    ) -> Result<Index, AllocError>
        requires some { 0 < length lines.now }
        requires few { length lines.now ≤ MAX_ROWS + 1 }
        ensures { IfOk result (HasEntries keys.now (print ∷ online ∷ []) (drop 1 lines.now)) }
    {
        let mut entries = entries_of(alloc, lines, print, online, keys)?;
        entries
            .as_mut_slice()
            .sort_unstable_by_key(|entry| entry.key());
        // At least one bucket for each entry, and at most two.
        let shift = (entries.len() as u32).leading_zeros().min(31);
        let starts = starts_of(alloc, entries.as_slice(), shift)?;
        Ok(Index {
            entries,
            starts,
            shift,
        })
    }

    /// The entries.
    pub(crate) fn as_slice(&self) -> &[Entry]
        ensures entries { result.now ≡ self.now }
        ensures order { IsOrdered result.now }
        ensures small { AreSmall result.now }
    {
        self.entries.as_slice()
    }

    /// How many entries are before those of this hash with this row or a later one.
    pub(crate) fn place(&self, hash: u32, row: u32) -> usize
        ensures before { (k : ℕ) (d : Entry) → k < result → k < length self.now
            → entry_key (get_or self.now k d) < spec.key_of hash row }
        ensures after { (k : ℕ) (d : Entry) → result ≤ k → k < length self.now
            → spec.key_of hash row ≤ entry_key (get_or self.now k d) }
        ensures small { AreSmall self.now }
    {
        let bucket = (hash >> self.shift) as usize;
        let start = self.starts[bucket] as usize;
        let end = self.starts[bucket + 1] as usize;
        place_in(self.entries.as_slice(), start, end, key_of(hash, row))
    }
}

/// The first place between two whose entry is not before a key, the second place if there is none.
fn place_in(entries: &[Entry], start: usize, end: usize, key: u64) -> usize
    requires order { IsOrdered entries.now }
    requires rising { start ≤ end }
    requires within { end ≤ length entries.now }
    ensures before { (k : ℕ) (d : Entry) → start ≤ k → k < result → entry_key (get_or entries.now k d) < key }
    ensures after { (k : ℕ) (d : Entry) → result ≤ k → k < end → key ≤ entry_key (get_or entries.now k d) }
    ensures within { (start ≤ result) × (result ≤ end) }
{
    start + entries[start..end].partition_point(|entry| entry.key() < key)
}

/// The entries of all rows.
fn entries_of(
    alloc: Global,
    lines: &Records,
    print: Option<usize>,
    online: Option<usize>,
    keys: &Keys,
) -> Result<Vec<Entry>, AllocError>
    requires some { 0 < length lines.now }
    requires few { length lines.now ≤ MAX_ROWS + 1 }
    ensures has { IfOk result (λ entries. HasEntries keys.now (print ∷ online ∷ []) (drop 1 lines.now) entries.items) }
    ensures few { IfOk result (λ entries. length entries.items ≤ 2 * MAX_ROWS) }
    ensures small { IfOk result (λ entries. AreSmall entries.items) }
{
    let mut entries = Vec::new(alloc);
    let mut id = Vec::new(alloc);
    for row in 0..lines.len() - 1 {
        let line = lines.line(row + 1);
        add_entry(line, print, row as u32, keys, &mut id, &mut entries)?;
        add_entry(line, online, row as u32, keys, &mut id, &mut entries)?;
    }
    Ok(entries)
}

/// Adds the entry of the identifier in a column of a row's line, if there is one. `id` is overwritten; calls share its
/// memory.
fn add_entry(
    line: &str,
    column: Option<usize>,
    row: u32,
    keys: &Keys,
    id: &mut Vec<u8>,
    entries: &mut Vec<Entry>,
) -> Result<(), AllocError>
    ensures { OnOk result (entries.new.items ≡ entries.old.items
        ++ option_to_list (option_map (entry_for keys.now row) (identifier_in (cells_in line.now) column))) }
{
    if let Some(cell) = cell_in(line, column) {
        write_normal(cell, id)?;
        let hash = half_of(keys.hash(id.as_slice()));
        entries.push(Entry { hash, row })?;
    }
    Ok(())
}

/// Of each bucket of hashes, and of one past the last, where its entries start.
fn starts_of(alloc: Global, entries: &[Entry], shift: u32) -> Result<Vec<u32>, AllocError>
    requires shift { shift < 32 }
    requires order { IsOrdered entries.now }
    requires small { AreSmall entries.now }
    requires few { length entries.now ≤ 2 * MAX_ROWS }
    ensures { IfOk result (λ starts. AreStarts shift entries.now starts.items) }
{
    let buckets = (u32::MAX >> shift) as usize + 2;
    let mut starts = Vec::with_capacity(alloc, buckets)?;
    let mut at = 0;
    for bucket in 0..buckets {
        at = start_from(entries, shift, bucket, at);
        starts.push(at as u32)?;
    }
    Ok(starts)
}

/// The first place at or after `at` whose entry is not of an earlier bucket.
fn start_from(entries: &[Entry], shift: u32, bucket: usize, at: usize) -> usize
    requires shift { shift < 32 }
    requires within { at ≤ length entries.now }
    ensures before { (k : ℕ) (d : Entry) → at ≤ k → k < result
        → bucket_of shift (get_or entries.now k d).hash < bucket }
    ensures after { (d : Entry) → result < length entries.now
        → bucket ≤ bucket_of shift (get_or entries.now result d).hash }
    ensures within { (at ≤ result) × (result ≤ length entries.now) }
{
    let mut start = at;
    while start < entries.len() && ((entries[start].hash >> shift) as usize) < bucket {
        start += 1;
    }
    start
}
