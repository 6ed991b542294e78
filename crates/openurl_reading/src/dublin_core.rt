//! Requests in simple Dublin Core.

ghost use Rattle.std.specs.Prelude.{◌≡◌, IfOk, codes, false};
ghost use Rattle.std.specs.Option.{option_and_then, option_map_or};
ghost use Rattle.kev_read.specs.Pairs.{first_of};
ghost use Rattle.openurl_reading.specs.Citations.{unless_blank, without_date};
ghost use Rattle.openurl_reading.specs.Dates.{date_keys, first_date};
ghost use Rattle.openurl_reading.specs.Steps.{after, changed, taken};
ghost use Rattle.openurl_reading.specs.Values.{led};
ghost use Rattle.openurl_reading.specs.OldKeys.{copying};
ghost use Rattle.openurl_reading.specs.DublinCore as spec;

use crate::change::{fill, lead};
use crate::citations::{fill_part, unless_blank, without_date};
use crate::dates::{date_of, first_date};
use crate::kinds::{Kind, kind_named, kind_of};
use crate::old_keys::copy_key_if;
use crate::pairs::Pairs;
use crate::sources::{first_journal, first_reference};
use journal_references::Reference;
use std::alloc::{AllocError, Global};
use uri_text::Text;

/// The end of the name of its format.
const FORMAT_END: &[u8] = b":dc";

/// Creator, type, source and title give their values, or what is read in them, to keys of the formats for articles and
/// books, unless these have some.
pub(crate) fn copy_elements(alloc: Global, pairs: Pairs) -> Result<Pairs, AllocError>
    ensures { IfOk result (λ copied. copied ≡ after spec.core_steps pairs) }
{
    let pairs = copy_creator(alloc, pairs)?;
    let pairs = copy_type(alloc, pairs)?;
    let pairs = copy_source(alloc, pairs)?;
    let pairs = copy_parts(alloc, pairs)?;
    let pairs = copy_titles(alloc, pairs)?;
    Ok(pairs)
}

fn copy_creator(alloc: Global, pairs: Pairs) -> Result<Pairs, AllocError>
    ensures { IfOk result (λ copied. copied ≡ taken pairs (copying spec.is_core spec.creator)) }
{
    let is_core = is_core(&pairs);
    copy_key_if(alloc, is_core, "rft.creator", "rft.au", pairs)
}

fn copy_type(alloc: Global, pairs: Pairs) -> Result<Pairs, AllocError>
    ensures { IfOk result (λ copied. copied ≡ taken pairs (copying spec.is_typed spec.core_type)) }
{
    let is_typed = is_typed(&pairs);
    copy_key_if(alloc, is_typed, "rft.type", "rft.genre", pairs)
}

/// The journal of an article, if the request has no title of a journal.
fn copy_source(alloc: Global, pairs: Pairs) -> Result<Pairs, AllocError>
    ensures { IfOk result (λ copied. copied ≡ taken pairs spec.core_source) }
{
    let journal = core_journal(alloc, &pairs)?;
    let pairs = fill(alloc, "rft.jtitle", journal, pairs)?;
    Ok(pairs)
}

/// The journal in the sources of a request in Dublin Core.
fn core_journal(alloc: Global, pairs: &Pairs) -> Result<Option<Text>, AllocError>
    ensures { IfOk result (λ journal. journal ≡ spec.core_journal pairs.now) }
{
    if is_core(pairs) {
        first_journal(alloc, pairs)
    } else {
        Ok(None)
    }
}

/// The parts of a reference in a source, for the keys that have no value.
#[tactic(auto, using(crate::proofs::CoreParts::unfound_same))]
fn copy_parts(alloc: Global, pairs: Pairs) -> Result<Pairs, AllocError>
    ensures { IfOk result (λ copied. copied ≡ after spec.core_parts pairs) }
{
    let Some(found) = core_reference(alloc, &pairs)? else {
        return Ok(pairs);
    };
    let Reference {
        name: _,
        volume,
        issue,
        pages: places,
        year,
    } = found;
    let pairs = fill_part(alloc, "rft.volume", volume, pairs)?;
    let pairs = fill_part(alloc, "rft.issue", issue, pairs)?;
    let pairs = fill_part(alloc, "rft.pages", places, pairs)?;
    let pairs = fill_year(alloc, year, pairs)?;
    Ok(pairs)
}

/// The reference in the sources of a request in Dublin Core.
fn core_reference(alloc: Global, pairs: &Pairs) -> Result<Option<Reference>, AllocError>
    ensures { IfOk result (λ found. found ≡ spec.core_reference pairs.now) }
{
    if is_core(pairs) {
        first_reference(alloc, pairs)
    } else {
        Ok(None)
    }
}

/// The year of the reference, if the request has no date.
fn fill_year(alloc: Global, year: Option<Text>, pairs: Pairs) -> Result<Pairs, AllocError>
    ensures { IfOk result (λ after. after ≡ changed (codes "rft.date")
        (led (without_date (first_date date_keys pairs)
        (option_and_then spec.dated (option_and_then unless_blank year)))
        (first_of pairs (codes "rft.date"))) pairs) }
{
    let date = first_date(alloc, &pairs)?;
    let year = dated(alloc, unless_blank(year))?;
    let found = without_date(date, year);
    let pairs = lead(alloc, "rft.date", found, pairs)?;
    Ok(pairs)
}

/// The year, if it is read as a date.
fn dated(alloc: Global, year: Option<Text>) -> Result<Option<Text>, AllocError>
    ensures { IfOk result (λ dated. dated ≡ option_and_then spec.dated year) }
{
    let Some(text) = year else {
        return Ok(None);
    };
    if date_of(alloc, text.as_str())?.is_some() {
        Ok(Some(text))
    } else {
        Ok(None)
    }
}

fn copy_titles(alloc: Global, pairs: Pairs) -> Result<Pairs, AllocError>
    ensures { IfOk result (λ copied. copied ≡ after spec.core_titles pairs) }
{
    let pairs = copy_article_title(alloc, pairs)?;
    let pairs = copy_book_title(alloc, pairs)?;
    Ok(pairs)
}

fn copy_article_title(alloc: Global, pairs: Pairs) -> Result<Pairs, AllocError>
    ensures { IfOk result (λ copied. copied
        ≡ taken pairs (copying spec.is_in_journal (spec.of_core_title (codes "rft.atitle")))) }
{
    let is_in_journal = is_core(&pairs) && pairs.has("rft.jtitle");
    copy_key_if(alloc, is_in_journal, "rft.title", "rft.atitle", pairs)
}

fn copy_book_title(alloc: Global, pairs: Pairs) -> Result<Pairs, AllocError>
    ensures { IfOk result (λ copied. copied
        ≡ taken pairs (copying spec.is_of_core_book (spec.of_core_title (codes "rft.btitle")))) }
{
    let is_of_book = is_core(&pairs) && !pairs.has("rft.jtitle") && is_book(kind_of(&pairs));
    copy_key_if(alloc, is_of_book, "rft.title", "rft.btitle", pairs)
}

fn is_book(kind: Kind) -> bool
    ensures { result ≡ spec.is_book kind }
{
    match kind {
        Kind::Book => true,
        Kind::Dissertation | Kind::Journal => false,
    }
}

/// Whether a request is in Dublin Core.
pub(crate) fn is_core(pairs: &Pairs) -> bool
    ensures { result ≡ spec.is_core pairs.now }
{
    match pairs.first("rft_val_fmt") {
        Some(format) => is_core_format(format.as_bytes()),
        None => has_element(pairs),
    }
}

fn is_core_format(format: &[u8]) -> bool
    ensures { result ≡ spec.is_core_format format.now }
{
    let end = format
        .split_at(format.len().saturating_sub(FORMAT_END.len()))
        .1;
    end.eq_ignore_ascii_case(FORMAT_END)
}

/// Whether a request has an element that no other format has.
fn has_element(pairs: &Pairs) -> bool
    ensures { result ≡ spec.has_element pairs.now }
{
    pairs.has("rft.creator") || pairs.has("rft.source") || pairs.has("rft.identifier")
}

/// Whether the type is a genre of one kind.
fn is_typed(pairs: &Pairs) -> bool
    ensures { result ≡ spec.is_typed pairs.now }
{
    is_core(pairs) && has_genre_as_type(pairs)
}

fn has_genre_as_type(pairs: &Pairs) -> bool
    ensures { result ≡ option_map_or spec.is_genre (first_of pairs.now (codes "rft.type")) false }
{
    match pairs.first("rft.type") {
        Some(genre) => kind_named(genre).is_some(),
        None => false,
    }
}
