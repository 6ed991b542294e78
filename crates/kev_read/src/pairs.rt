//! Pairs of key and value, kept in one text.

ghost use Rattle.std.specs.Prelude.{◌≡◌, ◌<◌, All, length, map, slice_get, Some};
ghost use Rattle.std.specs.Option.{option_map};
ghost use Rattle.kev_read.specs.Private.KeyMarks.{mark_of};
ghost use Rattle.kev_read.specs.Private.KeyOrder.{key_at};
ghost use Rattle.kev_read.specs.Private.Layout.{IsPlaced, IsSpan, key_text, key_value, pair_in, part_in};

use crate::marked_key::MarkedKey;
use std::marker::Model;
use std::str::from_utf8_unchecked;

/// A key and its value, both decoded.
#[derive(Clone, Copy)]
pub(crate) struct Pair<'a> {
    pub(crate) key: &'a str,
    pub(crate) value: &'a str,
}

/// Where a key or a value is in a text, in bytes.
#[derive(Clone, Copy)]
pub(crate) struct Span {
    pub(crate) start: usize,
    pub(crate) end: usize,
}

/// Where a pair is in a text. The mark is that of the key.
#[derive(Clone, Copy)]
pub(crate) struct Place {
    pub(crate) key: Span,
    pub(crate) value: Span,
    pub(crate) mark: u64,
}

/// Pairs of key and value, all in one text; contracts see the pairs.
#[derive(Drop)]
pub(crate) struct Pairs {
    // The query as it was received, and after it the parts that had to be decoded.
    text: Vec<u8>,
    places: Vec<Place>,
}

impl Model for Pairs {
    ghost use Rattle.std.specs.Prelude.{List};
    ghost use Rattle.kev_read.specs.Pairs.{KeyValue};

    ghost Value = { List KeyValue };

    ghost use Rattle.std.specs.Prelude.{map, All};
    ghost use Rattle.kev_read.specs.Private.Layout.{pair_in, IsPlaced};

    ghost view = { λ pairs. map (pair_in pairs.text.items) pairs.places.items };

    ghost invariant = { λ pairs. All (IsPlaced pairs.text.items) pairs.places.items };
}

impl Pairs {
    /// The pairs at the places.
    pub(crate) fn new(text: Vec<u8>, places: Vec<Place>) -> Pairs
        requires { All (IsPlaced text.items) places.items }
        ensures { result ≡ map (pair_in text.items) places.items }
    {
        Pairs { text, places }
    }

    pub(crate) fn len(&self) -> usize
        ensures { result ≡ length self.now }
    {
        self.places.len()
    }

    /// At least the bytes of all values. No result depends on it.
    pub(crate) fn text_len(&self) -> usize {
        self.text.len()
    }

    /// The pair at the index.
    pub(crate) fn at(&self, index: usize) -> Pair<'_>
        requires { index < length self.now }
        ensures { slice_get self.now index ≡ Some (key_value result) }
    {
        let place = self.places[index];
        Pair {
            key: part(&self.text, place.key),
            value: part(&self.text, place.value),
        }
    }

    /// The mark of the key of the pair at the index; `None` if there is no such pair.
    pub(crate) fn mark(&self, index: usize) -> Option<u64>
        ensures { result ≡ option_map mark_of (key_at self.now index) }
    {
        match self.key(index) {
            Some(key) => Some(key.mark),
            None => None,
        }
    }

    /// The key of the pair at the index; `None` if there is no such pair.
    pub(crate) fn key(&self, index: usize) -> Option<MarkedKey<'_>>
        ensures { option_map key_text result ≡ key_at self.now index }
    {
        if index < self.len() {
            Some(MarkedKey {
                mark: self.places[index].mark,
                text: self.at(index).key,
            })
        } else {
            None
        }
    }
}

/// The part of a text at the span.
#[inline(always)]
fn part(text: &[u8], span: Span) -> &str
    requires { IsSpan text.now span }
    ensures { result.now ≡ part_in text.now span }
{
    unsafe { from_utf8_unchecked(&text[span.start..span.end]) }
}
