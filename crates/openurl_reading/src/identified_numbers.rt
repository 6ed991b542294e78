//! The ISSN and the ISBN of a request among its identifiers, and the ISSN in a source of Dublin Core.

ghost use Rattle.std.specs.Prelude.{◌≡◌, IfOk, codes, filter};
ghost use Rattle.text_model.specs.Texts.{texts_of};
ghost use Rattle.work_identifiers.specs.declared.numbers.StandardNumber.TheVariants.{Issn};
ghost use Rattle.openurl_reading.specs.IdentifiedNumbers as spec;
ghost use Rattle.openurl_reading.specs.Numbers as numbers;
ghost use Rattle.openurl_reading.specs.Numbers.{first_number};
ghost use Rattle.openurl_reading.specs.Steps.{after, taken};
ghost use Rattle.openurl_reading.specs.Values.{searched};

use crate::change::lead;
use crate::dublin_core::is_core;
use crate::identifiers::as_identifier;
use crate::numbers::{first, issns_of, push_all};
use crate::pairs::Pairs;
use crate::searched::{in_ascii, searched};
use standard_numbers::{isbns_in, issns_in};
use std::alloc::{AllocError, Global};
use uri_text::{Text, begins_in_any_case};
use work_identifiers::{StandardNumber, is_number_alone, is_number_named};

/// The first ISSN and the first ISBN among the identifiers lead their keys, unless a number is found there.
pub(crate) fn lead_identified(alloc: Global, pairs: Pairs) -> Result<Pairs, AllocError>
    ensures { IfOk result (λ led. led ≡ after spec.identified_steps pairs) }
{
    let pairs = lead_number(alloc, StandardNumber::Issn, pairs)?;
    let pairs = lead_number(alloc, StandardNumber::Isbn, pairs)?;
    Ok(pairs)
}

fn lead_number(alloc: Global, number: StandardNumber, pairs: Pairs) -> Result<Pairs, AllocError>
    ensures { IfOk result (λ led. led ≡ taken pairs (spec.identified_step number)) }
{
    let found = identified(alloc, number, &pairs)?;
    if found.is_none() {
        return Ok(pairs);
    }
    let own = own_numbers(alloc, number, &pairs)?;
    if !own.is_empty() {
        return Ok(pairs);
    }
    lead(alloc, number_key(number), found, pairs)
}

fn number_key(number: StandardNumber) -> &'static str
    ensures { result.now ≡ spec.number_key number }
{
    match number {
        StandardNumber::Issn => "rft.issn",
        StandardNumber::Isbn => "rft.isbn",
    }
}

/// The keys of a number of the work itself.
fn own_keys(number: StandardNumber) -> &'static [&'static str]
    ensures { texts_of result.now ≡ spec.own_keys number }
{
    match number {
        StandardNumber::Issn => &["rft.issn"],
        StandardNumber::Isbn => &["rft.isbn", "rft.eisbn"],
    }
}

/// The numbers that are found under these keys.
fn own_numbers(
    alloc: Global,
    number: StandardNumber,
    pairs: &Pairs,
) -> Result<Vec<Text>, AllocError>
    ensures { IfOk result (λ found. found.items ≡ spec.own_numbers number pairs.now) }
{
    let mut found = Vec::new(alloc);
    for key in own_keys(number) {
        let values = pairs.all(alloc, key)?;
        push_all(&mut found, numbers_in(alloc, number, &values)?)?;
    }
    Ok(found)
}

/// The numbers in values.
fn numbers_in(
    alloc: Global,
    number: StandardNumber,
    values: &[&str],
) -> Result<Vec<Text>, AllocError>
    ensures { IfOk result (λ found. found.items ≡ numbers.numbers_in (spec.find_in number) (texts_of values.now)) }
{
    let mut found = Vec::new(alloc);
    for value in values {
        push_all(&mut found, numbers_of(alloc, number, value)?)?;
    }
    Ok(found)
}

/// The numbers in a value.
fn numbers_of(alloc: Global, number: StandardNumber, value: &str) -> Result<Vec<Text>, AllocError>
    ensures { IfOk result (λ found. found.items ≡ spec.find_in number (searched value.now)) }
{
    let text = in_ascii(alloc, value)?;
    find_in(alloc, number, searched(&text))
}

/// The numbers of a kind in a text.
fn find_in(alloc: Global, number: StandardNumber, text: &[u8]) -> Result<Vec<Text>, AllocError>
    ensures { IfOk result (λ found. found.items ≡ spec.find_in number text.now) }
{
    match number {
        StandardNumber::Issn => issns_in(alloc, text),
        StandardNumber::Isbn => isbns_in(alloc, text),
    }
}

/// The first number among the identifiers of a request, and then among its sources.
fn identified(
    alloc: Global,
    number: StandardNumber,
    pairs: &Pairs,
) -> Result<Option<Text>, AllocError>
    ensures { IfOk result (λ found. found ≡ spec.identified number pairs.now) }
{
    match among_identifiers(alloc, number, pairs)? {
        Some(found) => Ok(Some(found)),
        None => Ok(first(among_sources(alloc, number, pairs)?)),
    }
}

/// The first number among the identifiers of a request.
fn among_identifiers(
    alloc: Global,
    number: StandardNumber,
    pairs: &Pairs,
) -> Result<Option<Text>, AllocError>
    ensures { IfOk result (λ found. found ≡ first_number (spec.among_identifiers number pairs.now)) }
{
    for key in identifying_keys() {
        if let Some(found) = number_under(alloc, number, pairs, key)? {
            return Ok(Some(found));
        }
    }
    Ok(None)
}

/// The first number that is an identifier under a key.
fn number_under(
    alloc: Global,
    number: StandardNumber,
    pairs: &Pairs,
    key: &str,
) -> Result<Option<Text>, AllocError>
    ensures { IfOk result (λ found. found ≡ first_number (spec.numbers_under number pairs.now key.now)) }
{
    for value in &pairs.all(alloc, key)? {
        if let Some(found) = number_at(alloc, number, key, value)? {
            return Ok(Some(found));
        }
    }
    Ok(None)
}

/// The first number in a value that is its identifier.
fn number_at(
    alloc: Global,
    number: StandardNumber,
    key: &str,
    value: &str,
) -> Result<Option<Text>, AllocError>
    ensures { IfOk result (λ found. found ≡ first_number (spec.numbers_at number key.now value.now)) }
{
    let text = as_identifier(alloc, value)?;
    if is_number_under(number, key, text.as_str().as_bytes()) {
        Ok(first(whole_numbers(alloc, number, value)?))
    } else {
        Ok(None)
    }
}

/// The numbers in a value, if there is one without its hyphens, too.
fn whole_numbers(
    alloc: Global,
    number: StandardNumber,
    value: &str,
) -> Result<Vec<Text>, AllocError>
    ensures { IfOk result (λ found. found.items ≡ spec.whole_numbers number value.now) }
{
    let text = in_ascii(alloc, value)?;
    let is_whole = is_whole(alloc, number, searched(&text))?;
    if is_whole {
        numbers_of(alloc, number, value)
    } else {
        Ok(Vec::new(alloc))
    }
}

fn is_whole(alloc: Global, number: StandardNumber, text: &[u8]) -> Result<bool, AllocError>
    ensures { IfOk result (λ is. is ≡ spec.is_whole number text.now) }
{
    let text = without_hyphens(alloc, text)?;
    let found = find_in(alloc, number, &text)?;
    Ok(first(found).is_some())
}

fn without_hyphens(alloc: Global, text: &[u8]) -> Result<Vec<u8>, AllocError>
    ensures { IfOk result (λ bytes. bytes.items ≡ filter spec.is_no_hyphen text.now) }
{
    let mut bytes = Vec::from_slice(alloc, text)?;
    bytes.retain(|byte| *byte != b'-');
    Ok(bytes)
}

/// Whether a text is a number after a word that says so, or under the key of Dublin Core a number alone.
fn is_number_under(number: StandardNumber, key: &str, text: &[u8]) -> bool
    ensures { result ≡ spec.is_number_under number key.now text.now }
{
    is_number_named(number, text) || ("rft.identifier" == key && is_number_alone(number, text))
}

/// The ISSNs in the sources of a request in Dublin Core.
fn among_sources(
    alloc: Global,
    number: StandardNumber,
    pairs: &Pairs,
) -> Result<Vec<Text>, AllocError>
    ensures { IfOk result (λ found. found.items ≡ spec.among_sources number pairs.now) }
{
    match number {
        StandardNumber::Issn => issns_of_sources(alloc, pairs),
        StandardNumber::Isbn => Ok(Vec::new(alloc)),
    }
}

fn issns_of_sources(alloc: Global, pairs: &Pairs) -> Result<Vec<Text>, AllocError>
    ensures { IfOk result (λ found. found.items ≡ spec.among_sources Issn pairs.now) }
{
    let mut found = Vec::new(alloc);
    if !is_core(pairs) {
        return Ok(found);
    }
    for source in &pairs.values(alloc, "rft.source")? {
        push_all(&mut found, issns_of_source(alloc, source)?)?;
    }
    Ok(found)
}

/// The ISSNs in a source that is one, or says that it has one.
fn issns_of_source(alloc: Global, source: &str) -> Result<Vec<Text>, AllocError>
    ensures { IfOk result (λ found. found.items ≡ spec.issns_of_source source.now) }
{
    let has_issn = has_issn(alloc, source)?;
    if has_issn {
        issns_of(alloc, source)
    } else {
        Ok(Vec::new(alloc))
    }
}

fn has_issn(alloc: Global, source: &str) -> Result<bool, AllocError>
    ensures { IfOk result (λ has. has ≡ spec.has_issn source.now) }
{
    let text = as_identifier(alloc, source)?;
    if is_number_alone(StandardNumber::Issn, text.as_str().as_bytes()) {
        return Ok(true);
    }
    let text = in_ascii(alloc, source)?;
    Ok(says_issn(searched(&text)))
}

/// Whether the letters `ISSN` are in a text.
#[tactic(auto, using(crate::proofs::IdentifiedNumbers::says_later, crate::proofs::IdentifiedNumbers::says_here))]
fn says_issn(text: &[u8]) -> bool
    ensures { result ≡ spec.says (codes "issn") text.now }
{
    for (at, _) in text.iter().enumerate() {
        if begins_in_any_case(text.split_at(at).1, b"issn") {
            return true;
        }
    }
    false
}

/// The keys under which sources send identifiers.
fn identifying_keys() -> &'static [&'static str]
    ensures { texts_of result.now ≡ spec.identifying_keys }
{
    &[
        "rft_id",
        "id",
        "rft.doi",
        "doi",
        "pmid",
        "rft.pmid",
        "pmcid",
        "rft.pmcid",
        "rft.identifier",
    ]
}
