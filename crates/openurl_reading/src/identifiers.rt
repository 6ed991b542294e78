//! The identifiers of a request: DOIs, the numbers of PubMed, PubMed Central and OCLC, and those of arXiv.

ghost use Rattle.std.specs.Prelude.{◌≡◌, IfOk, IfSome, codes};
ghost use Rattle.std.specs.Option.{is_some, option_copied, option_map};
ghost use Rattle.std.specs.Str.{IsAscii};
ghost use Rattle.text_model.specs.Texts.{texts_of};
ghost use Rattle.kev_read.specs.Pairs.{all_of};
ghost use Rattle.openurl_reading.specs.Keys as keys;
ghost use Rattle.openurl_reading.specs.Steps.{after, taken};
ghost use Rattle.work_identifiers.specs.declared.namespace.Namespace.TheVariants.{Arxiv};
ghost use Rattle.work_identifiers.specs.Places.{identifier_in};
ghost use Rattle.work_identifiers.specs.Uris.{uri_of};
ghost use Rattle.openurl_reading.specs.Identifiers as spec;
ghost use Rattle.openurl_reading.specs.Sought.{first_in};

use crate::keys::is_one_of;
use crate::pairs::{Pair, Pairs, ascii_text, copy};
use crate::retractions::sent_titles;
use crate::sought::Sought;
use std::alloc::{AllocError, Global};
use uri_text::Text;
use work_identifiers::{
    Namespace, doi_in_address, identifier_alone, identifier_in, mention_in, uri_of,
};
use written_texts::{Role, read};

/// The first identifier of each namespace is in `rft_id` as its URI.
pub(crate) fn name_works(alloc: Global, pairs: Pairs) -> Result<Pairs, AllocError>
    ensures { IfOk result (λ named. named ≡ after spec.namings pairs) }
{
    let pairs = Sought::new(alloc, pairs)?;
    let pairs = name_work(alloc, Namespace::Oclc, pairs)?;
    let pairs = name_work(alloc, Namespace::Pmc, pairs)?;
    let pairs = name_work(alloc, Namespace::Pmid, pairs)?;
    let pairs = name_work(alloc, Namespace::Arxiv, pairs)?;
    let pairs = name_work(alloc, Namespace::Doi, pairs)?;
    Ok(pairs.into_pairs())
}

/// The first identifier of a namespace is in `rft_id` as its URI.
fn name_work(alloc: Global, namespace: Namespace, pairs: Sought) -> Result<Sought, AllocError>
    ensures { IfOk result (λ after. after ≡ taken pairs (spec.naming namespace)) }
{
    let Some(uri) = nameable_uri(alloc, namespace, &pairs)? else {
        return Ok(pairs);
    };
    let is_known = is_known(alloc, uri.as_str(), pairs.pairs())?;
    if is_known {
        return Ok(pairs);
    }
    pairs.after_uri(alloc, uri)
}

/// Whether the URI is in `rft_id`.
fn is_known(alloc: Global, uri: &str, pairs: &Pairs) -> Result<bool, AllocError>
    ensures { IfOk result (λ is. is ≡ keys.is_one_of (all_of pairs.now (codes "rft_id")) uri.now) }
{
    let known = pairs.all(alloc, "rft_id")?;
    Ok(is_one_of(&known, uri))
}

/// The URI of the identifier that a step names.
fn nameable_uri(
    alloc: Global,
    namespace: Namespace,
    pairs: &Sought,
) -> Result<Option<Text>, AllocError>
    ensures { IfOk result (λ uri. uri ≡ option_map (uri_of namespace) (spec.nameable namespace pairs.now)) }
{
    match nameable(alloc, namespace, pairs)? {
        Some(identifier) => {
            let uri = uri_of(alloc, namespace, identifier.as_str().as_bytes())?;
            Ok(Some(uri))
        }
        None => Ok(None),
    }
}

/// The identifier that a step names: one of arXiv only if the request has no DOI.
fn nameable(alloc: Global, namespace: Namespace, pairs: &Sought) -> Result<Option<Text>, AllocError>
    ensures value { IfOk result (λ found. found ≡ spec.nameable namespace pairs.now) }
    ensures ascii { IfOk result (λ found. IfSome found (λ identifier. IsAscii identifier)) }
{
    match namespace {
        Namespace::Arxiv => preprint(alloc, pairs),
        Namespace::Doi | Namespace::Pmid | Namespace::Oclc | Namespace::Pmc => {
            first_identifier(alloc, namespace, pairs)
        }
    }
}

/// The first identifier of arXiv, if the request has no DOI.
fn preprint(alloc: Global, pairs: &Sought) -> Result<Option<Text>, AllocError>
    ensures value { IfOk result (λ found. found ≡ spec.nameable Arxiv pairs.now) }
    ensures ascii { IfOk result (λ found. IfSome found (λ identifier. IsAscii identifier)) }
{
    if first_identifier(alloc, Namespace::Doi, pairs)?.is_some() {
        return Ok(None);
    }
    first_identifier(alloc, Namespace::Arxiv, pairs)
}

/// The first identifier of a namespace.
fn first_identifier(
    alloc: Global,
    namespace: Namespace,
    pairs: &Sought,
) -> Result<Option<Text>, AllocError>
    ensures value { IfOk result (λ found. found ≡ spec.first_identifier namespace pairs.now) }
    ensures ascii { IfOk result (λ found. IfSome found (λ identifier. IsAscii identifier)) }
{
    first_in(alloc, namespace, pairs.texts())
}

/// The first identifier of a namespace in texts under their keys.
pub(crate) fn first_in(
    alloc: Global,
    namespace: Namespace,
    texts: &[Pair],
) -> Result<Option<Text>, AllocError>
    ensures value { IfOk result (λ found. found ≡ first_in namespace texts.now) }
    ensures ascii { IfOk result (λ found. IfSome found (λ identifier. IsAscii identifier)) }
{
    for text in texts {
        if let Some(identifier) = identifier_under(alloc, namespace, text.key(), text.value())? {
            return Ok(Some(identifier));
        }
    }
    Ok(None)
}

/// The identifier in a text under a key, as a text of its own.
fn identifier_under(
    alloc: Global,
    namespace: Namespace,
    key: &str,
    text: &str,
) -> Result<Option<Text>, AllocError>
    ensures value { IfOk result (λ found. found ≡ spec.identifier_under namespace key.now text.now) }
    ensures ascii { IfOk result (λ found. IfSome found (λ identifier. IsAscii identifier)) }
{
    match part_of(alloc, namespace, key, text.as_bytes())? {
        Some(identifier) => Ok(Some(ascii_text(alloc, identifier)?)),
        None => Ok(None),
    }
}

/// A value in which an identifier is found as it is; any other one without what a layout has put into it, and decoded
/// again.
pub(crate) fn as_identifier(alloc: Global, value: &str) -> Result<Text, AllocError>
    ensures { IfOk result (λ text. text ≡ spec.as_identifier value.now) }
{
    let text = read(alloc, Role::Identifier, value)?;
    if text.as_str() == value {
        return Ok(text);
    }
    let is_found = has_identifier(alloc, value.as_bytes())?;
    if is_found {
        return copy(alloc, value);
    }
    Ok(text)
}

/// Whether a text has an identifier of any namespace.
fn has_identifier(alloc: Global, text: &[u8]) -> Result<bool, AllocError>
    ensures { IfOk result (λ has. has ≡ spec.has_one_of spec.all_namespaces text.now) }
{
    for namespace in all_namespaces() {
        if has(alloc, *namespace, text)? {
            return Ok(true);
        }
    }
    Ok(false)
}

fn has(alloc: Global, namespace: Namespace, text: &[u8]) -> Result<bool, AllocError>
    ensures { IfOk result (λ has. has ≡ is_some (identifier_in namespace text.now)) }
{
    let found = identifier_in(alloc, namespace, text)?;
    Ok(found.is_some())
}

fn all_namespaces() -> &'static [Namespace]
    ensures { result.now ≡ spec.all_namespaces }
{
    &[
        Namespace::Doi,
        Namespace::Pmid,
        Namespace::Oclc,
        Namespace::Pmc,
        Namespace::Arxiv,
    ]
}

/// The part of a text that is its identifier under a key.
fn part_of<'a>(
    alloc: Global,
    namespace: Namespace,
    key: &str,
    text: &'a [u8],
) -> Result<Option<&'a [u8]>, AllocError>
    ensures value { IfOk result (λ found. option_copied found ≡ spec.identifier_under namespace key.now text.now) }
    ensures ascii { IfOk result (λ found. IfSome found (λ identifier. IsAscii identifier.now)) }
{
    match identifier_in(alloc, namespace, text)? {
        Some(identifier) => Ok(Some(identifier)),
        None => unnamed(alloc, namespace, key, text),
    }
}

/// A number alone under a key that names it, or an identifier within the text.
fn unnamed<'a>(
    alloc: Global,
    namespace: Namespace,
    key: &str,
    text: &'a [u8],
) -> Result<Option<&'a [u8]>, AllocError>
    ensures value { IfOk result (λ found. option_copied found ≡ spec.unnamed namespace key.now text.now) }
    ensures ascii { IfOk result (λ found. IfSome found (λ identifier. IsAscii identifier.now)) }
{
    if names(namespace, key) {
        Ok(identifier_alone(namespace, text))
    } else {
        within(alloc, namespace, key, text)
    }
}

/// A DOI in the address of a page, or an identifier among the words of a title.
fn within<'a>(
    alloc: Global,
    namespace: Namespace,
    key: &str,
    text: &'a [u8],
) -> Result<Option<&'a [u8]>, AllocError>
    ensures value { IfOk result (λ found. option_copied found ≡ spec.within namespace key.now text.now) }
    ensures ascii { IfOk result (λ found. IfSome found (λ identifier. IsAscii identifier.now)) }
{
    if is_page(namespace, key) {
        Ok(doi_in_address(text))
    } else if is_one_of(sent_titles(), key) {
        mention_in(alloc, namespace, text)
    } else {
        Ok(None)
    }
}

/// Whether the key says of which namespace a value is.
fn names(namespace: Namespace, key: &str) -> bool
    ensures { result ≡ spec.names namespace key.now }
{
    match namespace {
        Namespace::Pmid => is_one_of(pubmed_keys(), key),
        Namespace::Pmc => is_one_of(central_keys(), key),
        Namespace::Doi | Namespace::Oclc | Namespace::Arxiv => false,
    }
}

/// Whether the key is that of the page from which a reader comes, and its DOI is meant.
fn is_page(namespace: Namespace, key: &str) -> bool
    ensures { result ≡ spec.is_page namespace key.now }
{
    match namespace {
        Namespace::Doi => "url" == key,
        Namespace::Pmid | Namespace::Oclc | Namespace::Pmc | Namespace::Arxiv => false,
    }
}

/// The keys under which a number alone is one of PubMed.
fn pubmed_keys() -> &'static [&'static str]
    ensures { texts_of result.now ≡ spec.pubmed_keys }
{
    &["pmid", "rft.pmid"]
}

/// The keys under which a number alone is one of PubMed Central.
fn central_keys() -> &'static [&'static str]
    ensures { texts_of result.now ≡ spec.central_keys }
{
    &["pmcid", "rft.pmcid"]
}

/// The keys of identifiers, that of OpenURL 1.0 first, then that of a page, and those of titles last.
pub(crate) fn identifier_keys() -> &'static [&'static str]
    ensures { texts_of result.now ≡ spec.identifier_keys }
{
    &[
        "rft_id",
        "id",
        "rft.doi",
        "doi",
        "pmid",
        "rft.pmid",
        "pmcid",
        "rft.pmcid",
        "rft.identifier",
        "url",
        "rft.atitle",
        "rft.jtitle",
        "rft.btitle",
        "rft.title",
        "atitle",
        "jtitle",
        "btitle",
        "title",
    ]
}
