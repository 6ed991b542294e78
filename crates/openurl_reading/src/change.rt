//! What a step does with the values of its key.

ghost use Rattle.std.specs.Prelude.{◌≡◌, ◌++◌, ◌∷◌, [], Some, IfOk, if◌then◌else◌};
ghost use Rattle.kev_read.specs.Pairs.{all_of, first_of};
ghost use Rattle.openurl_reading.specs.Steps as spec;
ghost use Rattle.openurl_reading.specs.Values.{led};
ghost use Rattle.openurl_reading.specs.Volumes.{without_own};

use crate::pairs::{Pair, Pairs, copy, push_pair};
use std::alloc::{AllocError, Global};
use std::marker::Model;
use uri_text::Text;

/// Values that are put before all pairs, and whether the other values of the key stay.
#[derive(Drop)]
pub(crate) struct Change {
    values: Vec<Text>,
    keeps: bool,
}

impl Model for Change {
    ghost Value = { spec.Change };

    ghost view = { λ change. record { values = change.values.items; keeps = change.keeps } };
}

impl Change {
    pub(crate) fn unchanged(alloc: Global) -> Change
        ensures { result ≡ spec.unchanged }
    {
        Change {
            values: Vec::new(alloc),
            keeps: true,
        }
    }

    pub(crate) fn leading(values: Vec<Text>) -> Change
        ensures { result ≡ spec.leading values.items }
    {
        Change {
            values,
            keeps: true,
        }
    }

    pub(crate) fn replacing(values: Vec<Text>) -> Change
        ensures { result ≡ spec.replacing values.items }
    {
        Change {
            values,
            keeps: false,
        }
    }
}

/// What was found leads the values of the key, unless it does already.
pub(crate) fn lead(
    alloc: Global,
    key: &str,
    found: Option<Text>,
    pairs: Pairs,
) -> Result<Pairs, AllocError>
    ensures { IfOk result (λ after. after ≡ spec.changed key.now (led found (first_of pairs key.now)) pairs) }
{
    let Some(value) = found else {
        return Ok(pairs);
    };
    if is_first(&pairs, key, value.as_str()) {
        return Ok(pairs);
    }
    put_first(alloc, key, value, pairs)
}

/// What was found is for a key that has no value.
#[tactic(auto, using(crate::proofs::CitingSteps::own_stays, crate::proofs::CitingSteps::none_own))]
pub(crate) fn fill(
    alloc: Global,
    key: &str,
    found: Option<Text>,
    pairs: Pairs,
) -> Result<Pairs, AllocError>
    ensures { IfOk result (λ after. after ≡ spec.changed key.now
        (led (without_own (all_of pairs key.now) found) (first_of pairs key.now)) pairs) }
{
    if pairs.first(key).is_some() {
        return Ok(pairs);
    }
    lead(alloc, key, found, pairs)
}

/// Whether the value is the first one of the key.
fn is_first(pairs: &Pairs, key: &str, value: &str) -> bool
    ensures { led (Some value.now) (first_of pairs.now key.now)
        ≡ (if result then spec.unchanged else spec.leading (value.now ∷ [])) }
{
    match pairs.first(key) {
        Some(first) => first == value,
        None => false,
    }
}

/// The pairs after a pair of the key.
pub(crate) fn put_first(
    alloc: Global,
    key: &str,
    value: Text,
    pairs: Pairs,
) -> Result<Pairs, AllocError>
    ensures { IfOk result (λ after. after ≡ record { key = key.now; value = value } ∷ pairs) }
{
    let mut list = pairs.into_list();
    list.insert(0, Pair::new(copy(alloc, key)?, value))?;
    Ok(Pairs::new(list))
}

/// The pairs after the change of the values of a key.
pub(crate) fn changed(
    alloc: Global,
    key: &str,
    change: Change,
    pairs: Pairs,
) -> Result<Pairs, AllocError>
    ensures { IfOk result (λ after. after ≡ spec.changed key.now change pairs) }
{
    let Change { values, keeps } = change;
    put_before(alloc, key, values, kept(keeps, key, pairs))
}

/// The pairs that stay.
fn kept(keeps: bool, key: &str, pairs: Pairs) -> Pairs
    ensures { result ≡ spec.kept keeps key.now pairs }
{
    if keeps { pairs } else { without(key, pairs) }
}

/// The pairs of other keys.
pub(crate) fn without(key: &str, pairs: Pairs) -> Pairs
    ensures { result ≡ spec.others key.now pairs }
{
    let mut list = pairs.into_list();
    list.retain(|pair| pair.key() != key);
    Pairs::new(list)
}

/// The pairs after a pair of the key for each value.
fn put_before(
    alloc: Global,
    key: &str,
    values: Vec<Text>,
    pairs: Pairs,
) -> Result<Pairs, AllocError>
    ensures { IfOk result (λ all. all ≡ spec.pairs_with key.now values.items ++ pairs) }
{
    if values.is_empty() {
        return Ok(pairs);
    }
    let mut list = pairs_with(alloc, key, values)?;
    let mut rest = pairs.into_list();
    list.append(&mut rest)?;
    Ok(Pairs::new(list))
}

/// A pair of the key for each value.
fn pairs_with(alloc: Global, key: &str, values: Vec<Text>) -> Result<Vec<Pair>, AllocError>
    ensures { IfOk result (λ list. list.items ≡ spec.pairs_with key.now values.items) }
{
    let mut list = Vec::new(alloc);
    for value in values {
        push_pair(alloc, &mut list, key, value)?;
    }
    Ok(list)
}
