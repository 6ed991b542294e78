//! The sources of a request in simple Dublin Core.

ghost use Rattle.std.specs.Prelude.{◌≡◌, ◌≤◌, ◌==◌, IfOk, None, Some, count_by, drop, length, if◌then◌else◌};
ghost use Rattle.std.specs.List.{list_any, prefix_len};
ghost use Rattle.std.specs.Str.{IsUtf8};
ghost use Rattle.text_model.specs.Texts.{texts_of};
ghost use Rattle.uri_text.specs.AnyCase.{begins_in_any_case};
ghost use Rattle.openurl_reading.specs.Citations.{is_letter};
ghost use Rattle.openurl_reading.specs.Sources as spec;

use crate::citations::{has_letter, in_title, is_letter};
use crate::pairs::{Pairs, copy};
use journal_references::Reference;
use std::alloc::{AllocError, Global};
use uri_text::{Text, begins_in_any_case};

/// The maximum number of sources that are read.
const MOST_SOURCES: usize = 3;

/// The maximum number of bytes of a source in which a reference, or the end of a name, is searched for.
const LONGEST_SOURCE: usize = 250;

/// The journal of the first source that has one.
pub(crate) fn first_journal(alloc: Global, pairs: &Pairs) -> Result<Option<Text>, AllocError>
    ensures { IfOk result (λ found. found ≡ spec.first_journal pairs.now) }
{
    for source in &sources(alloc, pairs)? {
        if let Some(name) = journal_in(alloc, source)? {
            return Ok(Some(name));
        }
    }
    Ok(None)
}

/// The first reference in a source, also without a name before it.
pub(crate) fn first_reference(alloc: Global, pairs: &Pairs) -> Result<Option<Reference>, AllocError>
    ensures { IfOk result (λ found. found ≡ spec.first_reference pairs.now) }
{
    for source in &sources(alloc, pairs)? {
        if let Some(found) = in_source(alloc, source)? {
            return Ok(Some(found));
        }
    }
    Ok(None)
}

/// The first sources.
fn sources(alloc: Global, pairs: &Pairs) -> Result<Vec<&str>, AllocError>
    ensures { IfOk result (λ sources. texts_of sources.items ≡ spec.sources pairs.now) }
{
    let mut sources = pairs.all(alloc, "rft.source")?;
    sources.truncate(MOST_SOURCES);
    Ok(sources)
}

/// The reference in a source.
fn in_source(alloc: Global, source: &str) -> Result<Option<Reference>, AllocError>
    ensures { IfOk result (λ found. found ≡ spec.in_source source.now) }
{
    if source.len() <= LONGEST_SOURCE {
        in_title(alloc, source)
    } else {
        Ok(None)
    }
}

/// The name of a journal in a source. A source with a reference after a name stays as it is.
fn journal_in(alloc: Global, source: &str) -> Result<Option<Text>, AllocError>
    ensures { IfOk result (λ name. name ≡ spec.journal_in source.now) }
{
    if !is_journal(source.as_bytes()) {
        return Ok(None);
    }
    match in_source(alloc, source)? {
        Some(found) => whole(alloc, found.name.as_str(), source),
        None => Ok(Some(cut(alloc, source)?)),
    }
}

/// The source, if the name before its reference has a letter.
fn whole(alloc: Global, name: &str, source: &str) -> Result<Option<Text>, AllocError>
    ensures { IfOk result (λ whole. whole ≡ (if list_any is_letter name.now then Some source.now else None)) }
{
    if has_letter(name.as_bytes()) {
        Ok(Some(copy(alloc, source)?))
    } else {
        Ok(None)
    }
}

/// The name before a volume, an issue or an ISSN; the source itself if it is long, or if no letter is before them.
fn cut(alloc: Global, source: &str) -> Result<Text, AllocError>
    ensures { IfOk result (λ name. name ≡ spec.cut source.now) }
{
    let bytes = source.as_bytes();
    if bytes.len() <= LONGEST_SOURCE {
        let name = before_place(bytes);
        if has_letter(name) {
            return text_of(alloc, name);
        }
    }
    copy(alloc, source)
}

fn text_of(alloc: Global, bytes: &[u8]) -> Result<Text, AllocError>
    requires { IsUtf8 bytes.now }
    ensures { IfOk result (λ text. text ≡ bytes.now) }
{
    let text = String::from_utf8_lossy(alloc, bytes)?;
    Ok(Text::new(text))
}

fn before_place(text: &[u8]) -> &[u8]
    ensures { result.now ≡ spec.before_place text.now }
{
    text.split_at(first_end(text)).0
}

/// How many bytes are before the place where a name ends.
fn first_end(text: &[u8]) -> usize
    ensures value { result ≡ spec.first_end text.now 0 (length text.now) }
    ensures within { result ≤ length text.now }
{
    for count in 0..text.len() {
        if ends_name(text.split_at(count).1) {
            return count;
        }
    }
    text.len()
}

/// Whether a name is before the text, since it begins with such a sign, or with commas and spaces and then with what is
/// no part of a name.
fn ends_name(text: &[u8]) -> bool
    ensures { result ≡ spec.ends_name text.now }
{
    match text {
        [first, rest @ ..] => is_sign(*first) || (is_gap(*first) && is_place(after_gaps(rest))),
        [] => false,
    }
}

fn is_sign(byte: u8) -> bool
    ensures { result ≡ spec.is_sign byte }
{
    byte == b';' || byte == b'(' || byte == b'['
}

fn is_gap(byte: u8) -> bool
    ensures { result ≡ spec.is_gap byte }
{
    byte == b',' || byte == b' '
}

fn after_gaps(text: &[u8]) -> &[u8]
    ensures { result.now ≡ drop (prefix_len spec.is_gap text.now) text.now }
{
    text.split_at(gaps(text)).1
}

/// How many commas and spaces a text begins with.
fn gaps(text: &[u8]) -> usize
    ensures value { result ≡ prefix_len spec.is_gap text.now }
    ensures within { result ≤ length text.now }
{
    text.iter().take_while(|byte| is_gap(**byte)).count()
}

/// Whether a text begins with a sign, a digit or a word of a volume, an issue or an ISSN.
fn is_place(text: &[u8]) -> bool
    ensures { result ≡ spec.is_place text.now }
{
    match text {
        [first, ..] => is_sign(*first)
            || first.is_ascii_digit()
            || begins_with_one(text, place_words())
            || begins_with_numbered(text, number_words()),
        [] => false,
    }
}

/// Whether a text has two letters, and is neither an address nor a number or an identifier.
fn is_journal(source: &[u8]) -> bool
    ensures { result ≡ spec.is_journal source.now }
{
    count_of_letters(source) >= 2 && !begins_with_one(source, no_names())
}

fn count_of_letters(source: &[u8]) -> usize
    ensures { result ≡ count_by is_letter source.now }
{
    source.iter().filter(|byte| is_letter(**byte)).count()
}

/// Whether a text begins with one of these.
fn begins_with_one(text: &[u8], beginnings: &[&str]) -> bool
    ensures { result ≡ list_any (begins_in_any_case text.now) (texts_of beginnings.now) }
{
    for beginning in beginnings {
        if begins_in_any_case(text, beginning.as_bytes()) {
            return true;
        }
    }
    false
}

/// Whether a text begins with one of these and then with a number.
fn begins_with_numbered(text: &[u8], words: &[&str]) -> bool
    ensures { result ≡ list_any (spec.is_before_number text.now) (texts_of words.now) }
{
    for word in words {
        if is_before_number(text, word.as_bytes()) {
            return true;
        }
    }
    false
}

fn is_before_number(text: &[u8], word: &[u8]) -> bool
    ensures { result ≡ spec.is_before_number text.now word.now }
{
    begins_in_any_case(text, word) && begins_with_number(after_first(text, word.len()))
}

/// The text after that many bytes; nothing if it has fewer.
fn after_first(text: &[u8], count: usize) -> &[u8]
    ensures { result.now ≡ drop count text.now }
{
    text.split_at(count.min(text.len())).1
}

fn begins_with_number(text: &[u8]) -> bool
    ensures { result ≡ spec.begins_with_number text.now }
{
    match text.get(spaces(text)) {
        Some(byte) => byte.is_ascii_digit(),
        None => false,
    }
}

/// How many spaces a text begins with.
fn spaces(text: &[u8]) -> usize
    ensures value { result ≡ prefix_len (λ b. b == 0x20) text.now }
    ensures within { result ≤ length text.now }
{
    text.iter().take_while(|byte| **byte == b' ').count()
}

/// Words of a volume or an ISSN.
fn place_words() -> &'static [&'static str]
    ensures { texts_of result.now ≡ spec.place_words }
{
    &["vol.", "vol ", "volume ", "issn ", "issn:"]
}

/// Words of a volume or an issue, before a number.
fn number_words() -> &'static [&'static str]
    ensures { texts_of result.now ≡ spec.number_words }
{
    &["v.", "no.", "n."]
}

/// What addresses, numbers, identifiers, volumes and issues begin with.
fn no_names() -> &'static [&'static str]
    ensures { texts_of result.now ≡ spec.no_names }
{
    &[
        "http:",
        "https:",
        "issn",
        "isbn",
        "arxiv:",
        "doi:",
        "doi ",
        "doi.org/",
        "dx.doi.org/",
        "10.",
        "info:",
        "urn:",
        "pmid",
        "pmcid",
        "pmc:",
        "hdl:",
        "oai:",
        "vol.",
        "vol ",
        "no.",
    ]
}
