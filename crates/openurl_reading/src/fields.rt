//! The fields of a form for citations: a number and an identifier of any kind.

ghost use Rattle.std.specs.Prelude.{◌≡◌, IfOk};
ghost use Rattle.std.specs.Char.{is_ascii_digit};
ghost use Rattle.std.specs.List.{list_all};
ghost use Rattle.work_identifiers.specs.Forms.{is_between, is_number};
ghost use Rattle.openurl_reading.specs.Steps.{after};
ghost use Rattle.openurl_reading.specs.Fields as spec;

use crate::numbers::{first, isbns_of};
use crate::old_keys::copy_key;
use crate::pairs::Pairs;
use std::alloc::{AllocError, Global};

/// The maximum number of digits of a number of PubMed.
const MOST_DIGITS: usize = 9;

/// Both fields give their values to keys of requests, unless these have some.
pub(crate) fn copy_fields(alloc: Global, pairs: Pairs) -> Result<Pairs, AllocError>
    ensures { IfOk result (λ copied. copied ≡ after spec.fields pairs) }
{
    let pairs = copy_number(alloc, pairs)?;
    let pairs = copy_identifier(alloc, pairs)?;
    Ok(pairs)
}

/// A number is that of a book if it has an ISBN, or else that of a journal.
fn copy_number(alloc: Global, pairs: Pairs) -> Result<Pairs, AllocError>
    ensures { IfOk result (λ copied. copied ≡ after spec.number_fields pairs) }
{
    let is_of_book = is_of_book(alloc, &pairs)?;
    if is_of_book {
        let pairs = copy_key(alloc, "number", "rft.isbn", pairs)?;
        return Ok(pairs);
    }
    let pairs = copy_key(alloc, "number", "rft.issn", pairs)?;
    Ok(pairs)
}

/// An identifier of a few digits is a number of PubMed.
fn copy_identifier(alloc: Global, pairs: Pairs) -> Result<Pairs, AllocError>
    ensures { IfOk result (λ copied. copied ≡ after spec.identifier_fields pairs) }
{
    if is_of_pubmed(&pairs) {
        let pairs = copy_key(alloc, "identifier", "pmid", pairs)?;
        return Ok(pairs);
    }
    let pairs = copy_key(alloc, "identifier", "id", pairs)?;
    Ok(pairs)
}

/// Whether an ISBN is found in the first number.
fn is_of_book(alloc: Global, pairs: &Pairs) -> Result<bool, AllocError>
    ensures { IfOk result (λ is. is ≡ spec.is_of_book pairs.now) }
{
    match pairs.first("number") {
        Some(number) => has_isbn(alloc, number),
        None => Ok(false),
    }
}

fn has_isbn(alloc: Global, value: &str) -> Result<bool, AllocError>
    ensures { IfOk result (λ has. has ≡ spec.has_isbn value.now) }
{
    let isbns = isbns_of(alloc, value)?;
    Ok(first(isbns).is_some())
}

/// Whether the first identifier is a number of PubMed.
fn is_of_pubmed(pairs: &Pairs) -> bool
    ensures { result ≡ spec.is_of_pubmed pairs.now }
{
    match pairs.first("identifier") {
        Some(identifier) => is_pubmed_number(identifier),
        None => false,
    }
}

/// Whether a value is a number of PubMed, with spaces around it or without.
fn is_pubmed_number(value: &str) -> bool
    ensures { result ≡ spec.is_pubmed_number value.now }
{
    is_number(value.trim().as_bytes())
}

/// Whether bytes are one to nine digits.
fn is_number(bytes: &[u8]) -> bool
    ensures { result ≡ is_number 9 bytes.now }
{
    are_few(bytes.len()) && are_digits(bytes)
}

fn are_digits(bytes: &[u8]) -> bool
    ensures { result ≡ list_all is_ascii_digit bytes.now }
{
    bytes.iter().all(|byte| byte.is_ascii_digit())
}

fn are_few(digits: usize) -> bool
    ensures { result ≡ is_between 1 9 digits }
{
    1 <= digits && digits <= MOST_DIGITS
}
