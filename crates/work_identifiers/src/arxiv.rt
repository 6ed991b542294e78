//! The identifiers of arXiv.

ghost use Rattle.std.specs.Prelude.{◌≡◌, ◌≤◌, IfOk, length};
ghost use Rattle.std.specs.List.{prefix_len};
ghost use Rattle.work_identifiers.specs.Forms as spec;
ghost use Rattle.work_identifiers.specs.Places.{preprint};
ghost use Rattle.work_identifiers.specs.Uris.{without_class};

use crate::ends::byte_at;
use crate::forms::{are_digits, is_between, is_digit_or_stop};
use crate::rests::is_rest;
use std::alloc::{AllocError, Global};

/// Whether this is an identifier of arXiv, a new one or an old one.
pub(crate) fn is_arxiv(text: &[u8]) -> bool
    ensures { result ≡ spec.is_arxiv text.now }
{
    is_new(text) || is_old(text)
}

/// Whether this is four digits, a full stop, and four or five digits.
fn is_new(text: &[u8]) -> bool
    ensures { result ≡ spec.is_new text.now }
{
    is_between(9, 10, text.len())
        && are_digits(text.split_at(4).0)
        && text[4] == b'.'
        && are_digits(text.split_at(5).1)
}

/// Whether this is the name of an archive and a number.
fn is_old(text: &[u8]) -> bool
    ensures { result ≡ spec.is_old text.now }
{
    let (lead, number) = text.split_at(lead_length(text));
    is_archive(lead) && is_old_number(number)
}

fn is_archive(lead: &[u8]) -> bool
    ensures { result ≡ spec.is_archive lead.now }
{
    let (name, class) = lead.split_at(name_length(lead));
    is_between(2, 14, name.len()) && (class == b"/".as_slice() || is_class(class))
}

/// Whether this is a full stop, two letters and a slash.
fn is_class(text: &[u8]) -> bool
    ensures { result ≡ spec.is_class text.now }
{
    text.len() == 4
        && text[0] == b'.'
        && text[1].is_ascii_alphabetic()
        && text[2].is_ascii_alphabetic()
        && text[3] == b'/'
}

/// Whether these are seven digits.
fn is_old_number(number: &[u8]) -> bool
    ensures { result ≡ spec.is_old_number number.now }
{
    number.len() == 7 && are_digits(number)
}

fn is_name_byte(byte: u8) -> bool
    ensures { result ≡ spec.is_name_byte byte }
{
    byte.is_ascii_alphabetic() || byte == b'-'
}

fn is_lead_byte(byte: u8) -> bool
    ensures { result ≡ spec.is_lead_byte byte }
{
    is_name_byte(byte) || byte == b'.' || byte == b'/'
}

/// How many bytes are before the number.
fn lead_length(text: &[u8]) -> usize
    ensures value { result ≡ spec.lead_length text.now }
    ensures within { result ≤ length text.now }
{
    for (at, byte) in text.iter().enumerate() {
        if !is_lead_byte(*byte) {
            return at;
        }
    }
    text.len()
}

fn name_length(lead: &[u8]) -> usize
    ensures value { result ≡ spec.name_length lead.now }
    ensures within { result ≤ length lead.now }
{
    for (at, byte) in lead.iter().enumerate() {
        if !is_name_byte(*byte) {
            return at;
        }
    }
    lead.len()
}

/// The archive, and the digits and full stops after it; nothing if what follows says more.
pub(crate) fn preprint(text: &[u8]) -> &[u8]
    ensures { result.now ≡ preprint text.now }
{
    let lead = lead_length(text);
    let number = number_length(text.split_at(lead).1);
    let (preprint, rest) = text.split_at(lead + number);
    if is_rest(rest) { preprint } else { b"" }
}

/// How many digits and full stops a text begins with.
pub(crate) fn number_length(text: &[u8]) -> usize
    ensures value { result ≡ prefix_len spec.is_digit_or_stop text.now }
    ensures within { result ≤ length text.now }
{
    for (at, byte) in text.iter().enumerate() {
        if !is_digit_or_stop(*byte) {
            return at;
        }
    }
    text.len()
}

/// The name of the archive, and what follows its subject class.
pub(crate) fn without_class(alloc: Global, text: &[u8]) -> Result<Vec<u8>, AllocError>
    ensures { IfOk result (λ form. form.items ≡ without_class text.now) }
{
    let lead = text.split_at(lead_length(text)).0;
    let mut form = Vec::from_slice(alloc, lead.split_at(name_length(lead)).0)?;
    form.extend_from_slice(text.split_at(lead.len().saturating_sub(1)).1)?;
    Ok(form)
}
