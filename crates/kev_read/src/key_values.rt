//! The values of a request, key by key.

ghost use Rattle.std.specs.Prelude.{◌≡◌, ◌+◌, ◌*◌, ◌≤◌, ◌<◌, ◌++◌, ◌∷◌, [], All, IfOk, OnOk, Some, length, slice_get};
ghost use Rattle.std.specs.Prelude.{string_bytes};
ghost use Rattle.text_model.specs.Texts.{Text};
ghost use Rattle.environment_model.specs.Environment.{members_of};
ghost use Rattle.target_vars.specs.EnvValue.{AreMembersAt, IsWithin};
ghost use Rattle.kev_read.specs.Pairs as spec;
ghost use Rattle.kev_read.specs.Private.KeyOrder.{IsKeyOrder};
ghost use Rattle.kev_read.specs.declared.read.TheConstants.{MAX_PAIRS, MAX_QUERY_BYTES};

use crate::key_order::run_of;
use crate::pairs::Pairs;
use std::alloc::{AllocError, Global};
use std::marker::Model;

/// The values of a request, key by key. Contracts see an environment in which each key is the name of the list of its
/// values.
///
/// The values of a key are found by a binary search among the keys.
#[derive(Drop)]
pub struct KeyValues<'a> {
    pairs: &'a Pairs,
    order: &'a [u16],
    // The values in the order of their keys, and the offset and the length of each.
    text: String,
    spans: Vec<(u32, u32)>,
}

impl<'a> Model for KeyValues<'a> {
    ghost use Rattle.target_vars.specs.EnvValue.{EnvValue};
    ghost use Rattle.kev_read.specs.Private.Gathered.{AreKeyValues, gathered};
    ghost use Rattle.kev_read.specs.Private.KeyOrder.{pairs_at};
    ghost use Rattle.std.specs.Prelude.{string_bytes};

    ghost Value = { EnvValue };

    ghost view = { λ v. record {
      entries = gathered (pairs_at v.pairs.now v.order.now);
      buffer = string_bytes v.text;
      seam = 0;
      spans = v.spans.items;
    } };

    ghost invariant = { λ v. AreKeyValues v.pairs.now v.order.now (string_bytes v.text) v.spans.items };
}

impl<'a> KeyValues<'a> {
    /// The bytes of all values.
    pub fn buffer(&self) -> &[u8]
        ensures value { result.now ≡ self.now.buffer }
        ensures short { length result.now ≤ 3 * MAX_QUERY_BYTES }
        ensures within { All (IsWithin self.now) self.now.spans }
        ensures seam { self.now.seam ≡ 0 }
    {
        self.text.as_bytes()
    }

    /// How many values there are.
    pub fn len(&self) -> usize
        ensures value { result ≡ length self.now.spans }
        ensures few { result ≤ MAX_PAIRS }
    {
        self.spans.len()
    }

    /// Where a value is in the buffer: its offset and its length, in bytes. The values are counted from 0.
    pub fn span(&self, i: usize) -> (u32, u32)
        requires { i < length self.now.spans }
        ensures value { slice_get self.now.spans i ≡ Some (result.0, result.1) }
        ensures within { IsWithin self.now (result.0, result.1) }
    {
        self.spans[i]
    }

    /// Which spans are those of the values of a key: the first, and how many.
    pub fn members_at(&self, key: &str) -> (u32, u32)
        ensures { AreMembersAt self.now key.now result.0 result.1 }
    {
        let (first, count) = run_of(self.pairs, self.order, key);
        (first as u32, count as u32)
    }
}

/// The values of each key as the list of that name.
pub(crate) fn values_by_key<'a>(
    alloc: Global,
    pairs: &'a Pairs,
    order: &'a [u16],
) -> Result<KeyValues<'a>, AllocError>
    requires order { IsKeyOrder pairs.now order.now }
    requires few { length pairs.now ≤ MAX_PAIRS }
    requires small { spec.value_bytes pairs.now ≤ 3 * MAX_QUERY_BYTES }
    ensures lists { IfOk result (λ values. (key : Text) → members_of values.entries key ≡ spec.all_of pairs.now key) }
    ensures short { IfOk result (λ values. length values.buffer ≤ 3 * MAX_QUERY_BYTES) }
    ensures members { IfOk result (λ values. length values.spans ≤ MAX_PAIRS) }
{
    let mut text = String::with_capacity(alloc, pairs.text_len())?;
    let mut spans = Vec::with_capacity(alloc, order.len())?;
    for index in order {
        add(pairs.at(*index as usize).value, &mut text, &mut spans)?;
    }
    Ok(KeyValues {
        pairs,
        order,
        text,
        spans,
    })
}

/// Adds a value to the text, and where it is to the spans.
fn add(value: &str, text: &mut String, spans: &mut Vec<(u32, u32)>) -> Result<(), AllocError>
    requires { length (string_bytes text.old) + length value.now ≤ 3 * MAX_QUERY_BYTES }
    ensures text { OnOk result (string_bytes text.new ≡ string_bytes text.old ++ value.now) }
    ensures spans { OnOk result
        (spans.new.items ≡ spans.old.items ++ (length (string_bytes text.old), length value.now) ∷ []) }
{
    let start = text.len() as u32;
    text.push_str(value)?;
    spans.push((start, value.len() as u32))?;
    Ok(())
}
