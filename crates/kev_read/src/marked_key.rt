//! Keys with their marks.

ghost use Rattle.std.specs.Prelude.{◌≡◌};
ghost use Rattle.std.specs.Cmp.Lexicographic.{slice_cmp};
ghost use Rattle.std.specs.Ordering.{nat_cmp};
ghost use Rattle.kev_read.specs.Private.KeyMarks.{compared_keys, mark_of};

use std::cmp::Ordering;

/// A key with its mark, a number that compares in one step. Keys of different marks differ.
#[derive(Clone, Copy)]
pub(crate) struct MarkedKey<'a> {
    pub(crate) mark: u64,
    pub(crate) text: &'a str,
    pub(crate) ghost marked: { mark ≡ mark_of text.now },
}

impl<'a> MarkedKey<'a> {
    pub(crate) fn new(text: &'a str) -> MarkedKey<'a>
        ensures { result.text.now ≡ text.now }
    {
        MarkedKey {
            mark: mark(text.as_bytes()),
            text,
        }
    }

    /// How the key compares with another: by their marks, and keys of one mark by their bytes.
    #[inline(always)]
    pub(crate) fn compare(self, other: MarkedKey<'a>) -> Ordering
        ensures { result ≡ compared_keys self.entry.text.now other.entry.text.now }
    {
        match self.mark.cmp(&other.mark) {
            Ordering::Equal => compare_texts(self.text, other.text),
            unequal => unequal,
        }
    }
}

/// How keys of one mark compare: by their bytes. It is called seldom, and so kept out of loops.
#[inline(never)]
fn compare_texts(text: &str, other: &str) -> Ordering
    ensures { result ≡ slice_cmp nat_cmp text.now other.now }
{
    text.cmp(&other)
}

/// The mark of a key: its bytes as the digits of one number, of which 64 bits are kept.
pub(crate) fn mark(key: &[u8]) -> u64
    ensures { result ≡ mark_of key.now }
{
    let mut mark: u64 = 0;
    for byte in key {
        mark = mark.wrapping_mul(257).wrapping_add(*byte as u64);
    }
    mark
}
