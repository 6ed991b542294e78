//! Identifiers as sources write them, without what the layout of a page has put into them.

ghost use Rattle.std.specs.Prelude.{◌≡◌, ◌≤◌, ◌-◌, ◌++◌, length, drop, take, IfOk, OnOk, string_bytes};
ghost use Rattle.std.specs.List.{list_all};
ghost use Rattle.text_model.specs.Texts.{texts_of};
ghost use Rattle.written_numbers.specs.Identifiers as spec;

use crate::laws::plain_identifiers_stay;
use crate::layout::without_layout;
use std::alloc::{AllocError, Global};
use uri_text::begins_in_any_case;

fn is_blank(byte: u8) -> bool
    ensures { result ≡ spec.is_blank byte }
{
    byte == b' ' || byte == b'\t'
}

/// How many spaces and tabs are at the beginning.
fn blanks_before(line: &[u8]) -> usize
    ensures value { result ≡ spec.blanks_before line.now }
    ensures within { result ≤ length line.now }
{
    line.iter().take_while(|byte| is_blank(**byte)).count()
}

/// How many spaces and tabs are at the end.
fn blanks_after(line: &[u8]) -> usize
    ensures value { result ≡ spec.blanks_after line.now }
    ensures within { result ≤ length line.now }
{
    line.iter()
        .rev()
        .take_while(|byte| is_blank(**byte))
        .count()
}

fn unindented(line: &str) -> &str
    ensures { result.now ≡ spec.unindented line.now }
{
    line.split_at(blanks_before(line.as_bytes())).1
}

/// The line without the spaces and tabs at its end.
fn cut(line: &str) -> &str
    ensures { result.now ≡ take (length line.now - spec.blanks_after line.now) line.now }
{
    line.split_at(line.len() - blanks_after(line.as_bytes())).0
}

/// The line without the spaces and tabs at both ends.
#[tactic(auto, unfolding(crate::specs::Identifiers::trimmed))]
fn trimmed(line: &str) -> &str
    ensures { result.now ≡ spec.trimmed line.now }
{
    cut(unindented(line))
}

/// The lines in which there is more than spaces and tabs, without those at their ends.
#[tactic(auto, unfolding(crate::specs::Identifiers::filled_lines))]
fn filled_lines(alloc: Global, text: &str) -> Result<Vec<&str>, AllocError>
    ensures { IfOk result (λ lines. texts_of lines.items ≡ spec.filled_lines text.now) }
{
    text.split('\n')
        .map(|line| trimmed(line))
        .filter(|line| !line.is_empty())
        .collect(alloc)
}

/// Whether a text begins with `10.` and a digit.
fn begins_doi(line: &[u8]) -> bool
    ensures { result ≡ spec.begins_doi line.now }
{
    match line {
        [b'1', b'0', b'.', digit, ..] => digit.is_ascii_digit(),
        _ => false,
    }
}

/// The schemes of URIs and the names with which identifiers begin.
#[tactic(auto, unfolding(crate::specs::Identifiers::beginnings))]
fn beginnings() -> &'static [&'static str]
    ensures { texts_of result.now ≡ spec.beginnings }
{
    &[
        "http:", "https:", "info:", "urn:", "doi", "pmid", "pmc", "isbn", "issn",
    ]
}

/// Whether a line begins with one of these names.
fn begins_with_one_of(names: &[&str], line: &[u8]) -> bool
    ensures { result ≡ spec.begins_with_one_of (texts_of names.now) line.now }
{
    for name in names {
        if begins_in_any_case(line, name.as_bytes()) {
            return true;
        }
    }
    false
}

#[tactic(auto, unfolding(crate::specs::Identifiers::begins_identifier))]
fn begins_identifier(line: &[u8]) -> bool
    ensures { result ≡ spec.begins_identifier line.now }
{
    begins_doi(line) || begins_with_one_of(beginnings(), line)
}

/// Appends the lines up to the first one that begins another identifier.
#[tactic(auto, using(crate::proofs::ContinuedLines::line_ends, crate::proofs::ContinuedLines::line_continues))]
fn push_continued(text: &mut String, lines: &[&str]) -> Result<(), AllocError>
    ensures { OnOk result (string_bytes text.new ≡ string_bytes text.old ++ spec.continued (texts_of lines.now)) }
{
    let mut rest = lines;
    while let [line, others @ ..] = rest {
        if begins_identifier(line.as_bytes()) {
            return Ok(());
        }
        text.push_str(line)?;
        rest = others;
    }
    Ok(())
}

/// The first line with those that continue it.
fn of_lines(alloc: Global, lines: &[&str]) -> Result<String, AllocError>
    ensures { IfOk result (λ text. string_bytes text ≡ spec.of_lines (texts_of lines.now)) }
{
    match lines {
        [] => Ok(String::new(alloc)),
        [line, others @ ..] => {
            let mut text = String::from_str(alloc, line)?;
            push_continued(&mut text, others)?;
            Ok(text)
        }
    }
}

fn is_plain_byte(byte: u8) -> bool
    ensures { result ≡ spec.is_plain_byte byte }
{
    byte.is_ascii() && byte != b'\n' && byte != b'\r'
}

/// Whether a text is ASCII on one line.
fn is_one_line(text: &[u8]) -> bool
    ensures { result ≡ list_all spec.is_plain_byte text.now }
{
    text.iter().all(|byte| is_plain_byte(*byte))
}

/// Whether no space or tab is at an end of a text.
fn is_bare(text: &[u8]) -> bool
    ensures { result ≡ spec.is_bare text.now }
{
    blanks_before(text) == 0 && blanks_after(text) == 0
}

/// Whether a text is ASCII on one line, with no spaces or tabs at its ends.
fn is_plain(text: &[u8]) -> bool
    ensures { result ≡ spec.is_plain text.now }
{
    is_one_line(text) && is_bare(text)
}

/// The identifier without what a layout has put into it, and without another one on the lines after it.
///
/// The time is linear in the bytes of the text, and the result has at most as many. `AllocError` if an allocation
/// failed.
#[tactic(auto, unfolding(crate::specs::Identifiers::identifier_text))]
pub fn identifier_text(alloc: Global, text: &str) -> Result<String, AllocError>
    ensures { IfOk result (λ identifier. string_bytes identifier ≡ spec.identifier_text text.now) }
{
    plain_identifiers_stay();
    if is_plain(text.as_bytes()) {
        return String::from_str(alloc, text);
    }
    let plain = without_layout(alloc, text)?;
    let lines = filled_lines(alloc, plain.as_str())?;
    of_lines(alloc, &lines)
}
