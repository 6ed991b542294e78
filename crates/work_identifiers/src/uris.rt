//! The URIs of identifiers.

ghost use Rattle.std.specs.Prelude.{◌≡◌, IfOk};
ghost use Rattle.std.specs.Str.{IsAscii};
ghost use Rattle.work_identifiers.specs.Uris as spec;

use crate::arxiv::without_class;
use crate::namespace::Namespace;
use std::alloc::{AllocError, Global};
use uri_text::Text;

/// The URI of an identifier. That of a number of PubMed Central is the address of its article, and that of an
/// identifier of arXiv the URI of its DOI, without the subject class and in small letters.
///
/// What `identifier_in` and the others find is ASCII. `AllocError` if an allocation failed.
pub fn uri_of(alloc: Global, namespace: Namespace, identifier: &[u8]) -> Result<Text, AllocError>
    requires { IsAscii identifier.now }
    ensures { IfOk result (λ uri. uri ≡ spec.uri_of namespace identifier.now) }
{
    let canonical = canonical(alloc, namespace, identifier)?;
    let mut uri = String::from_str(alloc, namespace.uri_start())?;
    uri.push_str(canonical.as_str())?;
    uri.push_str(namespace.uri_end())?;
    Ok(Text::new(uri))
}

/// The form that an identifier has in its URI.
#[tactic(auto, using(crate::proofs::PreprintDois::canonical_ascii))]
fn canonical(alloc: Global, namespace: Namespace, identifier: &[u8]) -> Result<Text, AllocError>
    requires { IsAscii identifier.now }
    ensures { IfOk result (λ form. form ≡ spec.canonical namespace identifier.now) }
{
    match namespace {
        Namespace::Arxiv => {
            let form = canonical_arxiv(alloc, identifier)?;
            ascii_text(alloc, &form)
        }
        Namespace::Doi | Namespace::Pmid | Namespace::Oclc | Namespace::Pmc => {
            ascii_text(alloc, identifier)
        }
    }
}

/// An identifier of arXiv without its subject class, and in small letters.
fn canonical_arxiv(alloc: Global, identifier: &[u8]) -> Result<Vec<u8>, AllocError>
    ensures { IfOk result (λ form. form.items ≡ spec.canonical_arxiv identifier.now) }
{
    let form = without_class(alloc, identifier)?;
    form.to_ascii_lowercase(alloc)
}

/// The text of ASCII bytes.
fn ascii_text(alloc: Global, bytes: &[u8]) -> Result<Text, AllocError>
    requires { IsAscii bytes.now }
    ensures { IfOk result (λ text. text ≡ bytes.now) }
{
    let text = String::from_utf8_lossy(alloc, bytes)?;
    Ok(Text::new(text))
}
