//! References to articles after the names of their journals, in titles.

ghost use Rattle.std.specs.Prelude.{◌≡◌, IfOk, codes};
ghost use Rattle.std.specs.List.{list_any};
ghost use Rattle.std.specs.Option.{option_and_then};
ghost use Rattle.kev_read.specs.Pairs.{all_of, first_of};
ghost use Rattle.openurl_reading.specs.Citations as spec;
ghost use Rattle.openurl_reading.specs.Dates.{date_keys, first_date};
ghost use Rattle.openurl_reading.specs.Steps as steps;
ghost use Rattle.openurl_reading.specs.Values.{led};
ghost use Rattle.openurl_reading.specs.Volumes.{without_own};

use crate::change::{fill, lead};
use crate::counting::is_blank;
use crate::dates::first_date;
use crate::pairs::Pairs;
use journal_references::{Reference, reference_in};
use std::alloc::{AllocError, Global};
use uri_text::Text;
use written_texts::{Role, read};

/// The parts of a reference in the title of a journal go to the keys that have no value, and the name of the journal
/// leads.
#[tactic(auto, using(crate::proofs::CitingSteps::uncited_same))]
pub(crate) fn read_citation(alloc: Global, pairs: Pairs) -> Result<Pairs, AllocError>
    ensures { IfOk result (λ after. after ≡ steps.after spec.citing_steps pairs) }
{
    let Some(found) = citation(alloc, &pairs)? else {
        return Ok(pairs);
    };
    let Reference {
        name,
        volume,
        issue,
        pages: places,
        year,
    } = found;
    let pairs = fill_part(alloc, "rft.volume", volume, pairs)?;
    let pairs = fill_part(alloc, "rft.issue", issue, pairs)?;
    let pairs = fill_part(alloc, "rft.pages", places, pairs)?;
    let pairs = fill_date(alloc, year, pairs)?;
    let pairs = lead(alloc, "rft.jtitle", Some(name), pairs)?;
    Ok(pairs)
}

/// The reference in the first title of a journal.
fn citation(alloc: Global, pairs: &Pairs) -> Result<Option<Reference>, AllocError>
    ensures { IfOk result (λ found. found ≡ spec.citation pairs.now) }
{
    match pairs.first("rft.jtitle") {
        Some(title) => cited_in(alloc, title),
        None => Ok(None),
    }
}

/// The reference in a title, if it is after a name.
fn cited_in(alloc: Global, title: &str) -> Result<Option<Reference>, AllocError>
    ensures { IfOk result (λ found. found ≡ spec.cited_in title.now) }
{
    let Some(found) = in_title(alloc, title)? else {
        return Ok(None);
    };
    if is_name(alloc, found.name.as_str())? {
        Ok(Some(found))
    } else {
        Ok(None)
    }
}

/// The reference in the text of a title.
pub(crate) fn in_title(alloc: Global, title: &str) -> Result<Option<Reference>, AllocError>
    ensures { IfOk result (λ found. found ≡ spec.in_title title.now) }
{
    let text = read(alloc, Role::Title, title)?;
    let found = reference_in(alloc, text.as_str())?;
    Ok(found)
}

/// Whether a text has a letter, and no reference of its own.
fn is_name(alloc: Global, name: &str) -> Result<bool, AllocError>
    ensures { IfOk result (λ is. is ≡ spec.is_name name.now) }
{
    if !has_letter(name.as_bytes()) {
        return Ok(false);
    }
    let inner = in_title(alloc, name)?;
    Ok(inner.is_none())
}

pub(crate) fn has_letter(name: &[u8]) -> bool
    ensures { result ≡ list_any spec.is_letter name.now }
{
    name.iter().any(|byte| is_letter(*byte))
}

/// Whether a byte is a letter of ASCII, or one of another character.
pub(crate) fn is_letter(byte: u8) -> bool
    ensures { result ≡ spec.is_letter byte }
{
    byte.is_ascii_alphabetic() || byte >= 0x80
}

/// A part of the reference, for a key that has no value.
pub(crate) fn fill_part(
    alloc: Global,
    key: &str,
    part: Option<Text>,
    pairs: Pairs,
) -> Result<Pairs, AllocError>
    ensures { IfOk result (λ after. after ≡ steps.changed key.now
        (led (without_own (all_of pairs key.now) (option_and_then spec.unless_blank part)) (first_of pairs key.now))
        pairs) }
{
    fill(alloc, key, unless_blank(part), pairs)
}

/// The year of the reference, if the request has no date.
fn fill_date(alloc: Global, year: Option<Text>, pairs: Pairs) -> Result<Pairs, AllocError>
    ensures { IfOk result (λ after. after ≡ steps.changed (codes "rft.date")
        (led (spec.without_date (first_date date_keys pairs) (option_and_then spec.unless_blank year))
        (first_of pairs (codes "rft.date"))) pairs) }
{
    let date = first_date(alloc, &pairs)?;
    let found = without_date(date, unless_blank(year));
    let pairs = lead(alloc, "rft.date", found, pairs)?;
    Ok(pairs)
}

pub(crate) fn without_date(date: Option<Text>, year: Option<Text>) -> Option<Text>
    ensures { result ≡ spec.without_date date year }
{
    match date {
        Some(_) => None,
        None => year,
    }
}

pub(crate) fn unless_blank(part: Option<Text>) -> Option<Text>
    ensures { result ≡ option_and_then spec.unless_blank part }
{
    let text = part?;
    if is_blank(text.as_str().as_bytes()) {
        None
    } else {
        Some(text)
    }
}
