//! Pairs of a key and a value.

ghost use Rattle.std.specs.Prelude.{◌≡◌, ◌<◌, ◌++◌, ◌∷◌, [], IfOk, OnOk, Some, length, slice_get};
ghost use Rattle.std.specs.Option.{option_copied};
ghost use Rattle.std.specs.Str.{IsAscii};
ghost use Rattle.text_model.specs.Texts.{texts_of};
ghost use Rattle.kev_read.specs.Pairs as spec;
ghost use Rattle.openurl_reading.specs.Kinds.{has};
ghost use Rattle.openurl_reading.specs.Values.{values_of};

use std::alloc::{AllocError, Global};
use std::marker::Model;
use uri_text::Text;

/// The maximum number of values of a key that steps read.
const MOST_VALUES: usize = 20;

/// A key and its value.
#[derive(Drop)]
pub(crate) struct Pair {
    key: Text,
    value: Text,
}

impl Model for Pair {
    ghost use Rattle.kev_read.specs.Pairs.{KeyValue};

    ghost Value = { KeyValue };

    ghost view = { λ pair. record { key = pair.key; value = pair.value } };
}

impl Pair {
    pub(crate) fn new(key: Text, value: Text) -> Pair
        ensures { result ≡ record { key = key; value = value } }
    {
        Pair { key, value }
    }

    pub(crate) fn key(&self) -> &str
        ensures { result.now ≡ self.now.key }
    {
        self.key.as_str()
    }

    pub(crate) fn value(&self) -> &str
        ensures { result.now ≡ self.now.value }
    {
        self.value.as_str()
    }
}

/// Pairs in order.
#[derive(Drop)]
pub struct Pairs {
    list: Vec<Pair>,
}

impl Model for Pairs {
    ghost use Rattle.std.specs.Prelude.{List};
    ghost use Rattle.kev_read.specs.Pairs.{KeyValue};

    ghost Value = { List KeyValue };

    ghost view = { λ pairs. pairs.list.items };
}

impl Pairs {
    pub(crate) fn new(list: Vec<Pair>) -> Pairs
        ensures { result ≡ list.items }
    {
        Pairs { list }
    }

    pub(crate) fn into_list(self) -> Vec<Pair>
        ensures { result.items ≡ self }
    {
        let Pairs { list } = self;
        list
    }

    pub(crate) fn as_slice(&self) -> &[Pair]
        ensures { result.now ≡ self.now }
    {
        self.list.as_slice()
    }

    /// How many pairs there are.
    pub fn len(&self) -> usize
        ensures { result ≡ length self.now }
    {
        self.list.len()
    }

    /// The key and the value of the pair at the index.
    pub fn pair(&self, index: usize) -> (&str, &str)
        requires { index < length self.now }
        ensures { slice_get self.now index ≡ Some record { key = result.0.now; value = result.1.now } }
    {
        let pair = &self.list[index];
        (pair.key(), pair.value())
    }

    /// The first value of a key; `None` if no pair has the key.
    pub fn first(&self, key: &str) -> Option<&str>
        ensures { option_copied result ≡ spec.first_of self.now key.now }
    {
        for pair in &self.list {
            if pair.key() == key {
                return Some(pair.value());
            }
        }
        None
    }

    /// Whether a key has a value.
    pub(crate) fn has(&self, key: &str) -> bool
        ensures { result ≡ has self.now key.now }
    {
        self.first(key).is_some()
    }

    /// The first values of a key, at most 20.
    pub(crate) fn values(&self, alloc: Global, key: &str) -> Result<Vec<&str>, AllocError>
        ensures { IfOk result (λ values. texts_of values.items ≡ values_of self.now key.now) }
    {
        let mut values = self.all(alloc, key)?;
        values.truncate(MOST_VALUES);
        Ok(values)
    }

    /// The values of a key, in order.
    pub(crate) fn all(&self, alloc: Global, key: &str) -> Result<Vec<&str>, AllocError>
        ensures { IfOk result (λ values. texts_of values.items ≡ spec.all_of self.now key.now) }
    {
        let mut values = Vec::new(alloc);
        for pair in &self.list {
            if pair.key() == key {
                values.push(pair.value())?;
            }
        }
        Ok(values)
    }
}

/// A text with the same bytes.
pub(crate) fn copy(alloc: Global, text: &str) -> Result<Text, AllocError>
    ensures { IfOk result (λ copy. copy ≡ text.now) }
{
    Ok(Text::new(String::from_str(alloc, text)?))
}

/// The text of ASCII bytes.
pub(crate) fn ascii_text(alloc: Global, bytes: &[u8]) -> Result<Text, AllocError>
    requires { IsAscii bytes.now }
    ensures { IfOk result (λ text. text ≡ bytes.now) }
{
    let text = String::from_utf8_lossy(alloc, bytes)?;
    Ok(Text::new(text))
}

/// Appends a pair.
pub(crate) fn push_pair(
    alloc: Global,
    list: &mut Vec<Pair>,
    key: &str,
    value: Text,
) -> Result<(), AllocError>
    ensures { OnOk result (list.new.items ≡ list.old.items ++ record { key = key.now; value = value } ∷ []) }
{
    list.push(Pair::new(copy(alloc, key)?, value))?;
    Ok(())
}

/// Appends a pair of copies.
pub(crate) fn push_text(
    alloc: Global,
    list: &mut Vec<Pair>,
    key: &str,
    value: &str,
) -> Result<(), AllocError>
    ensures { OnOk result (list.new.items ≡ list.old.items ++ record { key = key.now; value = value.now } ∷ []) }
{
    let value = copy(alloc, value)?;
    push_pair(alloc, list, key, value)
}
