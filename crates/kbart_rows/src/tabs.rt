//! Tabs of a line, 16 bytes at a time.

ghost use Rattle.std.specs.Prelude.{◌≡◌, ◌≢◌, ℕ, ◌==◌, ◌+◌, ◌<◌, ◌≤◌, IfSome, IfNone, count_by, length, map};
ghost use Rattle.std.specs.Prelude.{slice_index, take};
ghost use Rattle.std.specs.Simd.Lanes.{chunk, mask_l};
ghost use Rattle.kbart_rows.specs.Cells as spec;
ghost use Rattle.kbart_rows.specs.Private.Line.{HasNoTab};

use std::simd::prelude::*;

/// The place of the first tab.
pub(crate) fn first_tab(line: &[u8]) -> Option<usize>
    ensures within { IfSome result (λ at. at < length line.now) }
    ensures tab { IfSome result (λ at. slice_index line.now at ≡ spec.tab) }
    ensures lacks { IfSome result (λ at. HasNoTab (take at line.now)) }
    ensures none { IfNone result (HasNoTab line.now) }
{
    let mut at = 0;
    while line.len() - at >= 16 {
        let skipped = bytes_before_tab(line, at);
        at += skipped;
        if skipped < 16 {
            return Some(at);
        }
    }
    while at < line.len() {
        if line[at] == b'\t' {
            return Some(at);
        }
        at += 1;
    }
    None
}

/// How many tabs a line has.
pub(crate) fn tab_count(line: &[u8]) -> usize
    ensures { result ≡ count_by (λ b. b == spec.tab) line.now }
{
    let mut count = 0;
    let mut at = 0;
    while line.len() - at >= 16 {
        count += tabs_of_16(line, at).count_ones() as usize;
        at += 16;
    }
    while at < line.len() {
        count += (line[at] == b'\t') as usize;
        at += 1;
    }
    count
}

/// How many of the 16 bytes at the place come before the first tab: all if none is a tab.
#[inline(always)]
fn bytes_before_tab(line: &[u8], place: usize) -> usize
    requires { place + 16 ≤ length line.now }
    ensures few { result ≤ 16 }
    ensures lacks { (k : ℕ) → place ≤ k → k < place + result → slice_index line.now k ≢ spec.tab }
    ensures tab { result < 16 → slice_index line.now (place + result) ≡ spec.tab }
{
    let tabs = tabs_of_16(line, place);
    if tabs == 0 {
        16
    } else {
        tabs.trailing_zeros() as usize
    }
}

/// A bit for each of the 16 bytes at the place, which is set if the byte is a tab.
#[inline(always)]
fn tabs_of_16(line: &[u8], place: usize) -> u64
    requires { place + 16 ≤ length line.now }
    ensures { result ≡ mask_l (map (λ b. b == spec.tab) (chunk place 16 line.now)) }
{
    u8x16::from_slice(&line[place..])
        .simd_eq(u8x16::splat(b'\t'))
        .to_bitmask()
}
