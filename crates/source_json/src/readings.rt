//! The reading of a query.

ghost use Rattle.std.specs.Prelude.{◌≡◌, Some, IfOk, OnOk, string_bytes};
ghost use Rattle.serde_json.specs.Read.{read};
ghost use Rattle.serde_json.specs.View.{members_view, view};
ghost use Rattle.source_json.specs.Values as spec;

use openurl_reading::{Pairs, Reading};
use serde_json::{Map, Value, json, put};
use std::alloc::{AllocError, Global};

/// The JSON of a reading: an object with its pairs, `pairs`, each an array of a key and its value, and with `notes`, an
/// object that has `left_out`, the number of pairs that were left out, and `retracted`, whether a title of the request
/// has the remark that its work was retracted.
///
/// `AllocError` if an allocation failed.
pub fn reading_json(alloc: Global, reading: &Reading) -> Result<String, AllocError>
    ensures text { IfOk result (λ text. string_bytes text ≡ spec.reading_text reading.now) }

    // Whoever reads the text as JSON has the value again.
    ensures read { IfOk result (λ text. read (string_bytes text) ≡ Some (spec.reading_value reading.now)) }
{
    let value = reading_value(alloc, reading)?;
    value.to_string(alloc)
}

fn reading_value(alloc: Global, reading: &Reading) -> Result<Value, AllocError>
    ensures { IfOk result (λ value. view value ≡ spec.reading_value reading.now) }
{
    let mut members = Map::new(alloc);
    put_reading(alloc, &mut members, reading)?;
    Ok(Value::Object(members))
}

/// Adds the members of a reading to those of an object.
pub(crate) fn put_reading(
    alloc: Global,
    members: &mut Map<String, Value>,
    reading: &Reading,
) -> Result<(), AllocError>
    ensures { OnOk result (members_view members.new.entries
        ≡ spec.with_reading reading.now (members_view members.old.entries)) }
{
    let notes = notes_value(alloc, reading)?;
    put(members, alloc, "notes", notes)?;
    let pairs = pairs_value(alloc, reading.pairs())?;
    put(members, alloc, "pairs", pairs)
}

/// Each pair as an array.
fn pairs_value(alloc: Global, pairs: &Pairs) -> Result<Value, AllocError>
    ensures { IfOk result (λ value. view value ≡ spec.pairs_value pairs.now) }
{
    let mut list = Vec::new(alloc);
    for index in 0..pairs.len() {
        let (key, value) = pairs.pair(index);
        list.push(pair_value(alloc, key, value)?)?;
    }
    Ok(Value::Array(list))
}

fn pair_value(alloc: Global, key: &str, value: &str) -> Result<Value, AllocError>
    ensures { IfOk result (λ json. view json ≡ spec.pair_value record { key = key.now; value = value.now }) }
{
    json!(in alloc; [key, value])
}

/// What is said of a reading beside its pairs.
fn notes_value(alloc: Global, reading: &Reading) -> Result<Value, AllocError>
    ensures { IfOk result (λ value. view value ≡ spec.notes_value reading.now) }
{
    let retracted = reading.is_retracted();
    json!(in alloc; {"left_out": reading.left_out(), "retracted": retracted})
}
