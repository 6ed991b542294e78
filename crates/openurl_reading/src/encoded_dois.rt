//! DOIs as a proxy that decodes addresses once has to get them.

ghost use Rattle.std.specs.Prelude.{◌≡◌, IfOk};
ghost use Rattle.std.specs.List.{list_all};
ghost use Rattle.openurl_reading.specs.EncodedDois as spec;

use std::alloc::{AllocError, Global};
use text_model::laws::writing_at_most_triples;
use uri_text::{Text, encode_u};

/// A DOI that has a character which may not stand in the path of a URI, encoded; `None` for another one.
pub(crate) fn encoded_doi(alloc: Global, doi: &str) -> Result<Option<Text>, AllocError>
    ensures { IfOk result (λ encoded. encoded ≡ spec.encoded_doi doi.now) }
{
    let bytes = doi.as_bytes();
    if are_of_path(bytes) {
        return Ok(None);
    }
    writing_at_most_triples();
    let mut out = String::new(alloc);
    out.reserve(bytes.len().saturating_mul(3))?;
    encode_u(&mut out, bytes);
    Ok(Some(Text::new(out)))
}

fn are_of_path(text: &[u8]) -> bool
    ensures { result ≡ list_all spec.is_of_path text.now }
{
    text.iter().all(|byte| is_of_path(*byte))
}

/// Whether a byte stands for itself in the path of a URI (RFC 3986, section 3.3).
#[tactic(auto, unfolding(text_model::specs::Texts::is_unreserved))]
fn is_of_path(byte: u8) -> bool
    ensures { result ≡ spec.is_of_path byte }
{
    byte.is_ascii_alphanumeric() || b"-._~/:@!$&'()*+,;=".contains(&byte)
}
