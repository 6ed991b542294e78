//! A query written again as a form in UTF-8.

ghost use Rattle.std.specs.Prelude.{◌≡◌, [], IfOk, OnOk, map, string_bytes};
ghost use Rattle.form_urlencoded.specs.Form as form;
ghost use Rattle.source_queries.specs.Utf8 as spec;

use form_urlencoded::{Serializer, raw_pairs};
use request_encodings::{Encoding, value_in};
use std::alloc::{AllocError, Global};

/// The pairs of the query, read in its encoding, as a form.
pub(crate) fn written(alloc: Global, encoding: Encoding, query: &[u8]) -> Result<String, AllocError>
    ensures { IfOk result (λ text. string_bytes text
        ≡ form.extend_pairs [] (map (spec.pair_in encoding) (form.raw_pairs query.now))) }
{
    let mut form = Serializer::new(String::new(alloc));
    for (name, value) in raw_pairs(query) {
        push_pair(&mut form, alloc, encoding, name, value)?;
    }
    Ok(form.finish())
}

/// Appends the pair, read in the encoding.
fn push_pair(
    target: &mut Serializer,
    alloc: Global,
    encoding: Encoding,
    name: &[u8],
    value: &[u8],
) -> Result<(), AllocError>
    ensures { OnOk result (target.new ≡ record target.old {
      form =
          form.append_pair target.old.form (spec.pair_in encoding (name.now, value.now)).0
          (spec.pair_in encoding (name.now, value.now)).1;
    }) }
{
    let name = value_in(alloc, encoding, name)?;
    let value = value_for(alloc, encoding, &name, value)?;
    target.append_pair(&name, &value)
}

/// The value of the pair with this name; UTF-8 if it declares an encoding.
fn value_for(
    alloc: Global,
    encoding: Encoding,
    name: &str,
    value: &[u8],
) -> Result<String, AllocError>
    ensures { IfOk result (λ text. string_bytes text ≡ spec.value_for encoding name.now value.now) }
{
    if is_encoding_key(name) {
        String::from_str(alloc, "info:ofi/enc:UTF-8")
    } else {
        value_in(alloc, encoding, value)
    }
}

fn is_encoding_key(name: &str) -> bool
    ensures { result ≡ spec.is_encoding_key name.now }
{
    name.eq_ignore_ascii_case("ctx_enc")
}
