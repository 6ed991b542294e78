//! The DOI within the address of a page.

ghost use Rattle.std.specs.Prelude.{◌≡◌, ◌≤◌, IfSome, length};
ghost use Rattle.std.specs.List.{prefix_len, take_while};
ghost use Rattle.std.specs.Option.{option_copied};
ghost use Rattle.std.specs.Str.{IsAscii};
ghost use Rattle.text_model.specs.Texts.{texts_of};
ghost use Rattle.work_identifiers.specs.Addresses as spec;

use crate::arxiv::number_length;
use crate::ends::byte_at;
use crate::forms::is_number;
use crate::namespace::Namespace;
use crate::places::identifier_at;

/// How many bytes of an address are read at most.
const LONGEST_ADDRESS: usize = 2000;

/// The first DOI in the address of a page, after `/`, `=` or `:` and up to `?`, `#`, `&`, a quote or a space: without
/// the view of the page that publishers write after it, as `/full` or `.pdf`, and without the version of a preprint of
/// bioRxiv or medRxiv.
///
/// A longer address than 2,000 bytes is not read, and percent-encoding is not decoded.
pub fn doi_in_address(address: &[u8]) -> Option<&[u8]>
    ensures value { option_copied result ≡ spec.doi_in_address address.now }
    ensures ascii { IfSome result (λ doi. IsAscii doi.now) }
{
    if address.len() <= LONGEST_ADDRESS {
        first_doi(address)
    } else {
        None
    }
}

/// The first DOI after one of `/=:`.
#[tactic(auto, using(crate::proofs::AddressSteps::doi_steps))]
fn first_doi(address: &[u8]) -> Option<&[u8]>
    ensures value { option_copied result ≡ spec.first_doi address.now }
    ensures ascii { IfSome result (λ doi. IsAscii doi.now) }
{
    for (at, byte) in address.iter().enumerate() {
        if let Some(doi) = doi_after(*byte, address.split_at(at + 1).1) {
            return Some(doi);
        }
    }
    None
}

/// The DOI after a byte, if it is one of `/=:`.
fn doi_after(byte: u8, rest: &[u8]) -> Option<&[u8]>
    ensures value { option_copied result ≡ spec.doi_after byte rest.now }
    ensures ascii { IfSome result (λ doi. IsAscii doi.now) }
{
    if is_opener(byte) { doi_at(rest) } else { None }
}

fn is_opener(byte: u8) -> bool
    ensures { result ≡ spec.is_opener byte }
{
    byte == b'/' || byte == b'=' || byte == b':'
}

/// The DOI with which a text begins.
fn doi_at(text: &[u8]) -> Option<&[u8]>
    ensures value { option_copied result ≡ spec.doi_at text.now }
    ensures ascii { IfSome result (λ doi. IsAscii doi.now) }
{
    let page = text.split_at(closed_length(text)).0;
    identifier_at(Namespace::Doi, without_version(without_view(page)))
}

fn is_closer(byte: u8) -> bool
    ensures { result ≡ spec.is_closer byte }
{
    byte <= b' '
        || byte == b'"'
        || byte == b'\''
        || byte == b'`'
        || byte == b'?'
        || byte == b'#'
        || byte == b'&'
}

fn is_no_closer(byte: u8) -> bool
    ensures { result ≡ spec.is_no_closer byte }
{
    !is_closer(byte)
}

/// How many bytes are before the first of these.
fn closed_length(text: &[u8]) -> usize
    ensures value { result ≡ prefix_len spec.is_no_closer text.now }
    ensures within { result ≤ length text.now }
{
    for (at, byte) in text.iter().enumerate() {
        if !is_no_closer(*byte) {
            return at;
        }
    }
    text.len()
}

/// The text up to the first slash or full stop with a view after it.
#[tactic(auto, using(crate::proofs::AddressSteps::view_steps))]
fn without_view(text: &[u8]) -> &[u8]
    ensures { result.now ≡ spec.without_view text.now }
{
    for (at, byte) in text.iter().enumerate() {
        if is_cut(*byte, text.split_at(at + 1).1) {
            return text.split_at(at).0;
        }
    }
    text
}

/// Whether a view begins after the byte.
fn is_cut(byte: u8, rest: &[u8]) -> bool
    ensures { result ≡ spec.is_cut byte rest.now }
{
    is_before_view(byte) && begins_with_view(rest)
}

fn is_before_view(byte: u8) -> bool
    ensures { result ≡ spec.is_before_view byte }
{
    byte == b'/' || byte == b'.'
}

/// Whether the first word is a view.
fn begins_with_view(text: &[u8]) -> bool
    ensures { result ≡ spec.begins_with_view text.now }
{
    is_one_of(views(), text.split_at(word_length(text)).0)
}

/// Whether a word is one of these, in capital or small letters.
pub(crate) fn is_one_of(words: &[&str], word: &[u8]) -> bool
    ensures { result ≡ spec.is_one_of (texts_of words.now) word.now }
{
    words
        .iter()
        .any(|one| one.as_bytes().eq_ignore_ascii_case(word))
}

fn is_in_word(byte: u8) -> bool
    ensures { result ≡ spec.is_in_word byte }
{
    !(byte == b'/' || byte == b'.' || byte == b'+')
}

fn word_length(text: &[u8]) -> usize
    ensures value { result ≡ prefix_len spec.is_in_word text.now }
    ensures within { result ≤ length text.now }
{
    for (at, byte) in text.iter().enumerate() {
        if !is_in_word(*byte) {
            return at;
        }
    }
    text.len()
}

/// What a page shows of an article, and the forms of its file.
fn views() -> &'static [&'static str]
    ensures { texts_of result.now ≡ spec.views }
{
    &[
        "abs",
        "abstract",
        "citation",
        "citations",
        "epdf",
        "epdfplus",
        "epub",
        "figures",
        "full",
        "full-text",
        "fulltext",
        "fullhtml",
        "htm",
        "html",
        "meta",
        "metadata",
        "metrics",
        "pdf",
        "pdfdirect",
        "pdfplus",
        "references",
        "summary",
        "suppl_file",
        "tables",
        "xml",
    ]
}

/// A preprint of bioRxiv or medRxiv without its version; any other DOI itself.
fn without_version(doi: &[u8]) -> &[u8]
    ensures { result.now ≡ spec.without_version doi.now }
{
    if !doi.starts_with(b"10.1101/") {
        return doi;
    }
    let number = number_length(doi.split_at(8).1);
    let (preprint, version) = doi.split_at(8 + number);
    if is_version(version) { preprint } else { doi }
}

/// Whether this is `v` and one to three digits.
fn is_version(text: &[u8]) -> bool
    ensures { result ≡ spec.is_version text.now }
{
    byte_at(text, 0) == b'v' && is_number(3, text.split_at(1).1)
}
