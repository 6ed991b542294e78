//! Where an identifier may begin in a text.

ghost use Rattle.std.specs.Prelude.{◌≡◌, ◌≤◌, ◌++◌, ◌∷◌, [], IfOk, IfSome, OnOk, length, map};
ghost use Rattle.std.specs.List.{filter_map, prefix_len};
ghost use Rattle.std.specs.Option.{option_copied};
ghost use Rattle.std.specs.Str.{IsAscii};
ghost use Rattle.text_model.specs.Texts.{texts_of};
ghost use Rattle.work_identifiers.specs.Places as spec;

use crate::arxiv::preprint;
use crate::ends::{from_start, to_end};
use crate::forms::{MOST_BYTES, is_identifier, is_number};
use crate::namespace::{Namespace, schemes};
use crate::segments::{from_site, segment};
use std::alloc::{AllocError, Global};
use uri_text::begins_in_any_case;

/// The identifier that a text is, with what says so: a word as in `doi:`, or the address of a resolver. A DOI needs
/// neither.
///
/// The text may have any bytes, in capital or small letters. `AllocError` if an allocation failed.
pub fn identifier_in(
    alloc: Global,
    namespace: Namespace,
    text: &[u8],
) -> Result<Option<&[u8]>, AllocError>
    ensures value { IfOk result (λ found. option_copied found ≡ spec.identifier_in namespace text.now) }
    ensures ascii { IfOk result (λ found. IfSome found (λ identifier. IsAscii identifier.now)) }
{
    let places = places(alloc, namespace, from_start(text))?;
    Ok(first_identifier(namespace, &places))
}

/// The identifier that a text is, if something else says which one it is, such as the key of a pair.
pub fn identifier_alone(namespace: Namespace, text: &[u8]) -> Option<&[u8]>
    ensures value { option_copied result ≡ spec.identifier_alone namespace text.now }
    ensures ascii { IfSome result (λ identifier. IsAscii identifier.now) }
{
    identifier_at(namespace, from_start(text))
}

/// The first identifier at these places.
fn first_identifier<'a>(namespace: Namespace, texts: &[&'a [u8]]) -> Option<&'a [u8]>
    ensures value { option_copied result ≡ spec.first_identifier namespace (texts_of texts.now) }
    ensures ascii { IfSome result (λ identifier. IsAscii identifier.now) }
{
    for text in texts {
        if let Some(identifier) = identifier_at(namespace, text) {
            return Some(identifier);
        }
    }
    None
}

/// The identifier with which a text begins.
pub(crate) fn identifier_at(namespace: Namespace, text: &[u8]) -> Option<&[u8]>
    ensures value { option_copied result ≡ spec.identifier_at namespace text.now }
    ensures ascii { IfSome result (λ identifier. IsAscii identifier.now) }
{
    if text.len() > MOST_BYTES {
        return None;
    }
    let part = part(namespace, text);
    if is_identifier(namespace, part) {
        Some(part)
    } else {
        None
    }
}

/// The part of a text that would be its identifier.
fn part(namespace: Namespace, text: &[u8]) -> &[u8]
    ensures { result.now ≡ spec.part namespace text.now }
{
    match namespace {
        Namespace::Doi => to_end(text),
        Namespace::Pmid | Namespace::Oclc => to_end(text),
        Namespace::Pmc => unversioned(to_end(text)),
        Namespace::Arxiv => to_end(preprint(text)),
    }
}

fn is_no_stop(byte: u8) -> bool
    ensures { result ≡ spec.is_no_stop byte }
{
    byte != b'.'
}

/// How many bytes are before the first full stop.
fn number_length(text: &[u8]) -> usize
    ensures value { result ≡ prefix_len spec.is_no_stop text.now }
    ensures within { result ≤ length text.now }
{
    for (at, byte) in text.iter().enumerate() {
        if !is_no_stop(*byte) {
            return at;
        }
    }
    text.len()
}

/// A number without its version.
fn unversioned(text: &[u8]) -> &[u8]
    ensures { result.now ≡ spec.unversioned text.now }
{
    let (number, version) = text.split_at(number_length(text));
    if is_version(version) { number } else { text }
}

/// Whether this is a version: one to three digits, after a full stop.
fn is_version(text: &[u8]) -> bool
    ensures { result ≡ spec.is_version text.now }
{
    match text {
        [] => false,
        [_, digits @ ..] => is_number(3, digits),
    }
}

/// Where an identifier may begin.
fn places(alloc: Global, namespace: Namespace, text: &[u8]) -> Result<Vec<&[u8]>, AllocError>
    ensures { IfOk result (λ places. texts_of places.items ≡ spec.places namespace text.now) }
{
    let mut named = named_places(alloc, namespace, text)?;
    match namespace {
        Namespace::Doi => {
            let mut places = alone(alloc, text)?;
            places.append(&mut named)?;
            Ok(places)
        }
        Namespace::Pmid | Namespace::Oclc | Namespace::Pmc | Namespace::Arxiv => Ok(named),
    }
}

/// After something that says which number it is.
fn named_places(alloc: Global, namespace: Namespace, text: &[u8]) -> Result<Vec<&[u8]>, AllocError>
    ensures { IfOk result (λ places. texts_of places.items ≡ spec.named_places namespace text.now) }
{
    let mut named = after_words(alloc, namespace, text)?;
    let mut texts = alone(alloc, text)?;
    texts.extend_from_slice(&named)?;
    let mut addresses = after_addresses(alloc, namespace, texts)?;
    named.append(&mut addresses)?;
    Ok(named)
}

/// After one word, or two.
fn after_words(alloc: Global, namespace: Namespace, text: &[u8]) -> Result<Vec<&[u8]>, AllocError>
    ensures { IfOk result (λ places. texts_of places.items ≡ spec.after_words namespace text.now) }
{
    let mut once = after_any(alloc, namespace.words(), &alone(alloc, text)?)?;
    let mut twice = after_any(alloc, namespace.words(), &once)?;
    once.append(&mut twice)?;
    Ok(once)
}

/// After an address of a resolver, with its scheme or without it.
fn after_addresses<'a>(
    alloc: Global,
    namespace: Namespace,
    texts: Vec<&'a [u8]>,
) -> Result<Vec<&'a [u8]>, AllocError>
    ensures { IfOk result
        (λ places. texts_of places.items ≡ spec.after_addresses namespace (texts_of texts.entry.items)) }
{
    let mut texts = texts;
    let mut addresses = after_any(alloc, schemes(), &texts)?;
    texts.append(&mut addresses)?;
    let sites = from_sites(alloc, namespace, texts)?;
    let rests = after_any(alloc, namespace.hosts(), &sites)?;
    segments(alloc, namespace, &rests)
}

/// Addresses from the hosts of OCLC on, without the names of libraries before it; any others themselves.
fn from_sites<'a>(
    alloc: Global,
    namespace: Namespace,
    texts: Vec<&'a [u8]>,
) -> Result<Vec<&'a [u8]>, AllocError>
    ensures { IfOk result
        (λ sites. texts_of sites.items ≡ spec.from_sites namespace (texts_of texts.entry.items)) }
{
    match namespace {
        Namespace::Oclc => each_from_site(alloc, &texts),
        Namespace::Doi | Namespace::Pmid | Namespace::Pmc | Namespace::Arxiv => Ok(texts),
    }
}

fn each_from_site<'a>(alloc: Global, texts: &[&'a [u8]]) -> Result<Vec<&'a [u8]>, AllocError>
    ensures { IfOk result (λ sites. texts_of sites.items ≡ map spec.from_site (texts_of texts.now)) }
{
    let mut sites = Vec::new(alloc);
    for text in texts {
        sites.push(from_site(text))?;
    }
    Ok(sites)
}

/// The parts of the rests of addresses that would be their identifiers.
fn segments<'a>(
    alloc: Global,
    namespace: Namespace,
    rests: &[&'a [u8]],
) -> Result<Vec<&'a [u8]>, AllocError>
    ensures { IfOk result
        (λ segments. texts_of segments.items ≡ map (spec.segment namespace) (texts_of rests.now)) }
{
    let mut segments = Vec::new(alloc);
    for rest in rests {
        segments.push(segment(namespace, rest))?;
    }
    Ok(segments)
}

/// The text alone.
fn alone(alloc: Global, text: &[u8]) -> Result<Vec<&[u8]>, AllocError>
    ensures { IfOk result (λ texts. texts_of texts.items ≡ text.now ∷ []) }
{
    let mut texts = Vec::new(alloc);
    texts.push(text)?;
    Ok(texts)
}

/// What is after each of these beginnings that a text has.
fn after_any<'a>(
    alloc: Global,
    beginnings: &[&str],
    texts: &[&'a [u8]],
) -> Result<Vec<&'a [u8]>, AllocError>
    ensures { IfOk result
        (λ rests. texts_of rests.items ≡ spec.after_any (texts_of beginnings.now) (texts_of texts.now)) }
{
    let mut rests = Vec::new(alloc);
    for text in texts {
        push_after(&mut rests, beginnings, text)?;
    }
    Ok(rests)
}

/// Appends what is after each of these beginnings that the text has.
fn push_after<'a>(
    rests: &mut Vec<&'a [u8]>,
    beginnings: &[&str],
    text: &'a [u8],
) -> Result<(), AllocError>
    ensures { OnOk result
        (texts_of rests.new.items
        ≡ texts_of rests.old.items ++ filter_map (spec.after text.now) (texts_of beginnings.now)) }
{
    for beginning in beginnings {
        if let Some(rest) = after(text, beginning) {
            rests.push(rest)?;
        }
    }
    Ok(())
}

/// What is after the beginning of a text.
fn after<'a>(text: &'a [u8], beginning: &str) -> Option<&'a [u8]>
    ensures { option_copied result ≡ spec.after text.now beginning.now }
{
    let beginning = beginning.as_bytes();
    if begins_in_any_case(text, beginning) {
        Some(from_start(text.split_at(beginning.len()).1))
    } else {
        None
    }
}
