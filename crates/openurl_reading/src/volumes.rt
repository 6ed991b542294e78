//! The volume and the issue of a request.

ghost use Rattle.std.specs.Prelude.{◌≡◌, ◌++◌, ◌∷◌, IfOk, IfSome, codes};
ghost use Rattle.std.specs.Option.{option_and_then, option_copied, option_map};
ghost use Rattle.std.specs.Str.{IsAscii};
ghost use Rattle.article_places.specs.Enumerations.{numbers, short_supplement};
ghost use Rattle.kev_read.specs.Pairs.{first_of};
ghost use Rattle.openurl_reading.specs.Steps.{after, taken};
ghost use Rattle.openurl_reading.specs.Volumes as spec;

use crate::change::lead;
use crate::pairs::{Pairs, ascii_text};
use crate::searched::{in_ascii, is_short};
use article_places::{Enumeration, enumeration_in};
use std::alloc::{AllocError, Global};
use uri_text::Text;

/// The volume and the issue lead their keys, without words.
pub(crate) fn lead_volumes(alloc: Global, pairs: Pairs) -> Result<Pairs, AllocError>
    ensures { IfOk result (λ led. led ≡ after spec.volume_steps pairs) }
{
    let pairs = add_issue(alloc, pairs)?;
    let pairs = lead_volume(alloc, pairs)?;
    let pairs = lead_issue(alloc, pairs)?;
    Ok(pairs)
}

/// The issue that is under the key of the volume, if there is no other one.
fn add_issue(alloc: Global, pairs: Pairs) -> Result<Pairs, AllocError>
    ensures { IfOk result (λ after. after ≡ taken pairs spec.added_issue_step) }
{
    let issue = added_issue(alloc, &pairs)?;
    lead(alloc, "rft.issue", issue, pairs)
}

fn lead_volume(alloc: Global, pairs: Pairs) -> Result<Pairs, AllocError>
    ensures { IfOk result (λ after. after ≡ taken pairs spec.volume_step) }
{
    let volume = volume(alloc, &pairs)?;
    lead(alloc, "rft.volume", volume, pairs)
}

fn lead_issue(alloc: Global, pairs: Pairs) -> Result<Pairs, AllocError>
    ensures { IfOk result (λ after. after ≡ taken pairs spec.issue_step) }
{
    let issue = issue(alloc, &pairs)?;
    lead(alloc, "rft.issue", issue, pairs)
}

fn added_issue(alloc: Global, pairs: &Pairs) -> Result<Option<Text>, AllocError>
    ensures { IfOk result (λ issue. issue ≡ spec.added_issue pairs.now) }
{
    if pairs.first("rft.issue").is_some() {
        return Ok(None);
    }
    let issue = issue_beside(alloc, pairs)?;
    Ok(issue)
}

/// The issue under the key of the volume.
fn issue_beside(alloc: Global, pairs: &Pairs) -> Result<Option<Text>, AllocError>
    ensures { IfOk result (λ issue. issue
        ≡ option_and_then spec.issue_after_volume (first_of pairs.now (codes "rft.volume"))) }
{
    match pairs.first("rft.volume") {
        Some(value) => issue_after_volume(alloc, value),
        None => Ok(None),
    }
}

/// The volume of a request, which may be before the number of the issue.
fn volume(alloc: Global, pairs: &Pairs) -> Result<Option<Text>, AllocError>
    ensures { IfOk result (λ volume. volume ≡ spec.volume pairs.now) }
{
    if let Some(value) = pairs.first("rft.volume") {
        return volume_in(alloc, value);
    }
    match pairs.first("rft.issue") {
        Some(value) => volume_before_issue(alloc, value),
        None => Ok(None),
    }
}

/// The issue of a request, if its volume is under its own key.
fn issue(alloc: Global, pairs: &Pairs) -> Result<Option<Text>, AllocError>
    ensures { IfOk result (λ issue. issue ≡ spec.issue pairs.now) }
{
    match pairs.first("rft.issue") {
        Some(value) => issue_in(alloc, pairs.first("rft.volume"), value),
        None => Ok(None),
    }
}

/// The volume in a value: the first number, or a supplement.
fn volume_in(alloc: Global, value: &str) -> Result<Option<Text>, AllocError>
    ensures { IfOk result (λ volume. volume ≡ spec.volume_in value.now) }
{
    let text = in_ascii(alloc, value)?;
    match numbers_of(alloc, text.as_str().as_bytes())? {
        Some(numbers) => match numbers.first {
            Some(first) => Ok(Some(ascii_text(alloc, first)?)),
            None => issue_text(alloc, None, numbers.supplement),
        },
        None => Ok(None),
    }
}

/// The issue after the first number in a value.
fn issue_after_volume(alloc: Global, value: &str) -> Result<Option<Text>, AllocError>
    ensures { IfOk result (λ issue. issue ≡ spec.issue_after_volume value.now) }
{
    let text = in_ascii(alloc, value)?;
    match numbers_of(alloc, text.as_str().as_bytes())? {
        Some(numbers) => match numbers.first {
            Some(_) => issue_text(alloc, numbers.issue, numbers.supplement),
            None => Ok(None),
        },
        None => Ok(None),
    }
}

/// The first number in a value, if an issue is after it.
fn volume_before_issue(alloc: Global, value: &str) -> Result<Option<Text>, AllocError>
    ensures { IfOk result (λ volume. volume ≡ spec.volume_before_issue value.now) }
{
    let text = in_ascii(alloc, value)?;
    match numbers_of(alloc, text.as_str().as_bytes())? {
        Some(numbers) => number_before(alloc, numbers.first, numbers.issue, numbers.supplement),
        None => Ok(None),
    }
}

/// The first number, if there are others after it.
fn number_before(
    alloc: Global,
    first: Option<&[u8]>,
    issue: Option<&[u8]>,
    mark: Option<&[u8]>,
) -> Result<Option<Text>, AllocError>
    requires { IfSome first (λ number. IsAscii number.now) }
    ensures { IfOk result (λ volume. volume
        ≡ spec.number_before (option_copied first.entry)
        (spec.issue_text (option_copied issue.entry) (option_copied mark.entry))) }
{
    match (first, issue, mark) {
        (_, None, None) => Ok(None),
        (Some(number), _, _) => Ok(Some(ascii_text(alloc, number)?)),
        (None, _, _) => Ok(None),
    }
}

/// The issue in a value.
fn issue_in(alloc: Global, volume: Option<&str>, value: &str) -> Result<Option<Text>, AllocError>
    ensures { IfOk result (λ issue. issue ≡ spec.issue_in (option_copied volume.entry) value.now) }
{
    let text = in_ascii(alloc, value)?;
    match numbers_of(alloc, text.as_str().as_bytes())? {
        Some(numbers) => issue_by(alloc, volume, numbers),
        None => Ok(None),
    }
}

/// The issue that numbers have, by cases on them.
fn issue_by(
    alloc: Global,
    volume: Option<&str>,
    numbers: Enumeration<'_>,
) -> Result<Option<Text>, AllocError>
    requires first { IfSome numbers.first (λ number. IsAscii number.now) }
    requires issue { IfSome numbers.issue (λ number. IsAscii number.now) }
    requires mark { IfSome numbers.supplement (λ mark. IsAscii mark.now) }
    ensures { IfOk result (λ issue. issue
        ≡ spec.issue_by (option_copied volume.entry) (option_copied numbers.entry.first)
        (option_copied numbers.entry.issue) (option_copied numbers.entry.supplement)) }
{
    let Some(first) = numbers.first else {
        return issue_text(alloc, None, numbers.supplement);
    };
    let is_volume = is_volume(volume, first);
    match (numbers.issue, numbers.supplement) {
        (None, None) => Ok(Some(ascii_text(alloc, first)?)),
        (Some(issue), None) if is_volume => Ok(Some(ascii_text(alloc, issue)?)),
        (None, Some(mark)) if is_volume => issue_text(alloc, None, Some(mark)),
        (None, Some(mark)) => issue_text(alloc, Some(first), Some(mark)),
        (Some(issue), Some(mark)) if is_volume && issue == first => issue_text(
            alloc,
            None,
            Some(mark),
        ),
        (Some(issue), Some(mark)) if is_volume => issue_text(alloc, Some(issue), Some(mark)),
        (Some(_), _) => Ok(None),
    }
}

/// Whether the number is that of the volume.
fn is_volume(volume: Option<&str>, number: &[u8]) -> bool
    ensures { result ≡ spec.is_volume (option_copied volume.entry) number.now }
{
    match volume {
        Some(volume) => volume.as_bytes() == number,
        None => false,
    }
}

/// An issue and a supplement as one text.
fn issue_text(
    alloc: Global,
    issue: Option<&[u8]>,
    mark: Option<&[u8]>,
) -> Result<Option<Text>, AllocError>
    requires issue { IfSome issue (λ number. IsAscii number.now) }
    requires mark { IfSome mark (λ mark. IsAscii mark.now) }
    ensures { IfOk result (λ text. text ≡ spec.issue_text (option_copied issue.entry) (option_copied mark.entry)) }
{
    match (issue, mark) {
        (None, None) => Ok(None),
        (None, Some(mark)) => Ok(Some(supplement_text(alloc, mark)?)),
        (Some(issue), None) => Ok(Some(ascii_text(alloc, issue)?)),
        (Some(issue), Some(mark)) => Ok(Some(supplement_of(alloc, issue, mark)?)),
    }
}

/// A supplement of an issue, such as `3 Suppl 1`.
fn supplement_of(alloc: Global, issue: &[u8], mark: &[u8]) -> Result<Text, AllocError>
    requires issue { IsAscii issue.now }
    requires mark { IsAscii mark.now }
    ensures { IfOk result (λ text. text ≡ issue.now ++ 0x20 ∷ short_supplement mark.now) }
{
    let issue = ascii_text(alloc, issue)?;
    let mut text = String::from_str(alloc, issue.as_str())?;
    text.push_str(" ")?;
    text.push_str(supplement_text(alloc, mark)?.as_str())?;
    Ok(Text::new(text))
}

/// A supplement, such as `Suppl 1`.
fn supplement_text(alloc: Global, mark: &[u8]) -> Result<Text, AllocError>
    requires { IsAscii mark.now }
    ensures { IfOk result (λ text. text ≡ short_supplement mark.now) }
{
    let mut text = String::from_str(alloc, "Suppl")?;
    if let [_, ..] = mark {
        text.push_str(" ")?;
        text.push_str(ascii_text(alloc, mark)?.as_str())?;
    }
    Ok(Text::new(text))
}

/// The numbers in a text, unless it is long.
fn numbers_of(alloc: Global, text: &[u8]) -> Result<Option<Enumeration<'_>>, AllocError>
    ensures value { IfOk result (λ found. option_map numbers found ≡ spec.numbers_of text.now) }
    ensures first_ascii { IfOk result (λ found. IfSome found (λ e. IfSome e.first (λ number. IsAscii number.now))) }
    ensures issue_ascii { IfOk result (λ found. IfSome found (λ e. IfSome e.issue (λ number. IsAscii number.now))) }
    ensures mark_ascii { IfOk result (λ found. IfSome found (λ e. IfSome e.supplement (λ mark. IsAscii mark.now))) }
{
    if is_short(text) {
        enumeration_in(alloc, text)
    } else {
        Ok(None)
    }
}
