//! The texts in which the identifiers of a request are sought. Each is made once for all namespaces.

ghost use Rattle.std.specs.Prelude.{◌≡◌, ◌∷◌, IfOk, codes};
ghost use Rattle.openurl_reading.specs.Sought as spec;

use crate::change::put_first;
use crate::identifiers::{as_identifier, identifier_keys};
use crate::pairs::{Pair, Pairs, copy, push_pair};
use std::alloc::{AllocError, Global};
use std::marker::Model;
use uri_text::Text;

/// The pairs of a request, and the texts in which its identifiers are sought, with their keys. Contracts see the pairs.
#[derive(Drop)]
pub(crate) struct Sought {
    pairs: Pairs,
    texts: Vec<Pair>,
}

impl Model for Sought {
    ghost use Rattle.std.specs.Prelude.{◌≡◌, List};
    ghost use Rattle.kev_read.specs.Pairs.{KeyValue};
    ghost use Rattle.openurl_reading.specs.Sought.{sought};

    ghost Value = { List KeyValue };

    ghost view = { λ request. request.pairs };

    ghost invariant = { λ request. request.texts.items ≡ sought request.pairs };
}

impl Sought {
    pub(crate) fn new(alloc: Global, pairs: Pairs) -> Result<Sought, AllocError>
        ensures { IfOk result (λ request. request ≡ pairs) }
    {
        let texts = all_texts(alloc, &pairs)?;
        Ok(Sought { pairs, texts })
    }

    pub(crate) fn pairs(&self) -> &Pairs
        ensures { result.now ≡ self.now }
    {
        &self.pairs
    }

    pub(crate) fn into_pairs(self) -> Pairs
        ensures { result ≡ self }
    {
        let Sought { pairs, texts: _ } = self;
        pairs
    }

    pub(crate) fn texts(&self) -> &[Pair]
        ensures { result.now ≡ spec.sought self.now }
    {
        self.texts.as_slice()
    }

    /// The pairs after the one of a URI, whose text comes first, too.
    pub(crate) fn after_uri(self, alloc: Global, uri: Text) -> Result<Sought, AllocError>
        ensures { IfOk result (λ after. after ≡ record { key = codes "rft_id"; value = uri } ∷ self) }
    {
        let Sought { pairs, mut texts } = self;
        let text = as_identifier(alloc, uri.as_str())?;
        texts.insert(0, Pair::new(copy(alloc, "rft_id")?, text))?;
        let pairs = put_first(alloc, "rft_id", uri, pairs)?;
        Ok(Sought { pairs, texts })
    }
}

/// The texts of all keys of identifiers.
fn all_texts(alloc: Global, pairs: &Pairs) -> Result<Vec<Pair>, AllocError>
    ensures { IfOk result (λ texts. texts.items ≡ spec.sought pairs.now) }
{
    let mut texts = Vec::new(alloc);
    for key in identifier_keys() {
        let mut more = sought_under(alloc, pairs, key)?;
        texts.append(&mut more)?;
    }
    Ok(texts)
}

/// The texts of the values of a key.
pub(crate) fn sought_under(alloc: Global, pairs: &Pairs, key: &str) -> Result<Vec<Pair>, AllocError>
    ensures { IfOk result (λ texts. texts.items ≡ spec.sought_under pairs.now key.now) }
{
    let mut texts = Vec::new(alloc);
    for value in &pairs.all(alloc, key)? {
        let text = as_identifier(alloc, value)?;
        push_pair(alloc, &mut texts, key, text)?;
    }
    Ok(texts)
}
