//! Runs of bytes that stand for themselves and separate nothing.

ghost use Rattle.std.specs.Prelude.{◌≡◌, true, ◌+◌, ◌≤◌, ◌<◌, ℕ, All, length, map, take, slice_index};
ghost use Rattle.std.specs.Simd.Lanes.{chunk, mask_l};
ghost use Rattle.kev_read.specs.Private.Ordinary.{IsOrdinary, all_bits_at, is_special};

use std::simd::prelude::*;

/// A dot for each ordinary byte, and the byte or `-` for the others.
static ORDINARY: [u8; 256] = *b"\
    ................................\
    .....%&....+.................=..\
    ................................\
    ................................\
    --------------------------------\
    --------------------------------\
    --------------------------------\
    --------------------------------";

/// How many ordinary bytes come first: those that are ASCII and none of `&`, `=`, `+` and `%`.
pub(crate) fn ordinary_len(bytes: &[u8]) -> usize
    ensures within { result ≤ length bytes.now }
    ensures ordinary { All IsOrdinary (take result bytes.now) }
{
    let mut len = 0;
    while bytes.len() - len >= 16 {
        let more = ordinary_of_16(bytes, len);
        len += more;
        if more < 16 {
            return len;
        }
    }
    while len < bytes.len() && is_ordinary(bytes[len]) {
        len += 1;
    }
    len
}

/// How many of the 16 bytes at the place come before the first that is not ordinary.
#[inline(always)]
fn ordinary_of_16(bytes: &[u8], place: usize) -> usize
    requires { place + 16 ≤ length bytes.now }
    ensures few { result ≤ 16 }
    ensures ordinary { (k : ℕ) → place ≤ k → k < place + result → IsOrdinary (slice_index bytes.now k) }
{
    let mask = special_of_16(bytes, place);
    if mask == 0 {
        16
    } else {
        mask.trailing_zeros() as usize
    }
}

/// A bit for each of the 16 bytes at the place, which is set unless the byte is ordinary.
#[inline(always)]
fn special_of_16(bytes: &[u8], place: usize) -> u64
    requires { place + 16 ≤ length bytes.now }
    ensures { result ≡ mask_l (map is_special (chunk place 16 bytes.now)) }
{
    let lanes = u8x16::from_slice(&bytes[place..]);
    let separates = equal_to(lanes, b'&') | equal_to(lanes, b'=');
    let encodes = equal_to(lanes, b'+') | equal_to(lanes, b'%');
    let special = separates | encodes | lanes;
    special.simd_ge(u8x16::splat(128)).to_bitmask()
}

/// All bits in each lane that has the byte, and none in the others.
#[inline(always)]
fn equal_to(lanes: u8x16, byte: u8) -> u8x16
    ensures { result ≡ map (all_bits_at byte) lanes }
{
    lanes
        .simd_eq(u8x16::splat(byte))
        .select(u8x16::splat(255), u8x16::splat(0))
}

#[inline(always)]
fn is_ordinary(byte: u8) -> bool
    ensures { result ≡ true → IsOrdinary byte }
{
    ORDINARY[byte as usize] == b'.'
}
