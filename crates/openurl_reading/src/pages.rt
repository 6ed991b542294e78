//! The pages of a request.

ghost use Rattle.std.specs.Prelude.{◌≡◌, ◌++◌, IfOk, IfSome, codes};
ghost use Rattle.std.specs.Option.{option_map};
ghost use Rattle.std.specs.Str.{IsAscii};
ghost use Rattle.article_places.specs.Pages.{in_full, range};
ghost use Rattle.kev_read.specs.Pairs.{first_of};
ghost use Rattle.openurl_reading.specs.ArticleNumbers.{is_article};
ghost use Rattle.openurl_reading.specs.Steps.{after, taken};
ghost use Rattle.openurl_reading.specs.Pages as spec;

use crate::article_numbers::article_in;
use crate::change::lead;
use crate::pairs::{Pairs, ascii_text};
use crate::searched::{in_ascii, is_short};
use article_places::{LastPage, Pages, pages_in};
use std::alloc::{AllocError, Global};
use uri_text::Text;

/// The first page and the last one lead their keys, without words and ranges.
pub(crate) fn lead_pages(alloc: Global, pairs: Pairs) -> Result<Pairs, AllocError>
    ensures { IfOk result (λ led. led ≡ after spec.page_steps pairs) }
{
    let pairs = lead_last_page(alloc, pairs)?;
    let pairs = lead_first_page(alloc, pairs)?;
    Ok(pairs)
}

fn lead_last_page(alloc: Global, pairs: Pairs) -> Result<Pairs, AllocError>
    ensures { IfOk result (λ after. after ≡ taken pairs spec.last_page_step) }
{
    let page = last_page(alloc, &pairs)?;
    lead(alloc, "rft.epage", page, pairs)
}

fn lead_first_page(alloc: Global, pairs: Pairs) -> Result<Pairs, AllocError>
    ensures { IfOk result (λ after. after ≡ taken pairs spec.first_page_step) }
{
    let page = first_page(alloc, &pairs)?;
    lead(alloc, "rft.spage", page, pairs)
}

/// The first page of a request, which may be the number of the article.
fn first_page(alloc: Global, pairs: &Pairs) -> Result<Option<Text>, AllocError>
    ensures { IfOk result (λ page. page ≡ spec.first_page pairs.now) }
{
    let number = article(alloc, pairs)?;
    if is_under_first_page(&number, pairs) {
        return Ok(number);
    }
    if let Some(page) = first_under(alloc, pairs, "rft.spage")? {
        return Ok(Some(page));
    }
    if let Some(page) = first_under(alloc, pairs, "rft.pages")? {
        return Ok(Some(page));
    }
    Ok(number)
}

/// The last page of a request, which may be that of a range under the key of the first one.
fn last_page(alloc: Global, pairs: &Pairs) -> Result<Option<Text>, AllocError>
    ensures { IfOk result (λ page. page ≡ spec.last_page pairs.now) }
{
    match pairs.first("rft.epage") {
        Some(value) => end_in(alloc, value),
        None => end_of_range(alloc, pairs),
    }
}

/// The last page of a range under the key of the first page, unless this is the number of the article.
fn end_of_range(alloc: Global, pairs: &Pairs) -> Result<Option<Text>, AllocError>
    ensures { IfOk result (λ page. page
        ≡ spec.end_among (spec.article pairs.now) (first_of pairs.now (codes "rft.spage"))
        (spec.page_under spec.last_in pairs.now (codes "rft.spage"))) }
{
    let number = article(alloc, pairs)?;
    if is_under_first_page(&number, pairs) {
        return Ok(None);
    }
    let page = last_under(alloc, pairs, "rft.spage")?;
    Ok(page)
}

/// The number of the article.
fn article(alloc: Global, pairs: &Pairs) -> Result<Option<Text>, AllocError>
    ensures { IfOk result (λ number. number ≡ spec.article pairs.now) }
{
    match pairs.first("rft.artnum") {
        Some(value) => article_in(alloc, value),
        None => Ok(None),
    }
}

/// Whether the key of the first page has the number of the article.
fn is_under_first_page(number: &Option<Text>, pairs: &Pairs) -> bool
    ensures { result ≡ is_article number.now (first_of pairs.now (codes "rft.spage")) }
{
    match (number, pairs.first("rft.spage")) {
        (Some(number), Some(value)) => value == number.as_str(),
        _ => false,
    }
}

/// The first page in the first value of a key.
fn first_under(alloc: Global, pairs: &Pairs, key: &str) -> Result<Option<Text>, AllocError>
    ensures { IfOk result (λ page. page ≡ spec.page_under spec.first_in pairs.now key.now) }
{
    match pairs.first(key) {
        Some(value) => first_in(alloc, value),
        None => Ok(None),
    }
}

/// The last page of a range in the first value of a key.
fn last_under(alloc: Global, pairs: &Pairs, key: &str) -> Result<Option<Text>, AllocError>
    ensures { IfOk result (λ page. page ≡ spec.page_under spec.last_in pairs.now key.now) }
{
    match pairs.first(key) {
        Some(value) => last_in(alloc, value),
        None => Ok(None),
    }
}

/// The last page of a range in a value, or its only page.
fn end_in(alloc: Global, value: &str) -> Result<Option<Text>, AllocError>
    ensures { IfOk result (λ page. page ≡ spec.end_in value.now) }
{
    if let Some(page) = last_in(alloc, value)? {
        return Ok(Some(page));
    }
    let page = first_in(alloc, value)?;
    Ok(page)
}

/// The first page in a value.
fn first_in(alloc: Global, value: &str) -> Result<Option<Text>, AllocError>
    ensures { IfOk result (λ page. page ≡ spec.first_in value.now) }
{
    let text = in_ascii(alloc, value)?;
    match pages_of(alloc, text.as_str().as_bytes())? {
        Some(pages) => Ok(Some(ascii_text(alloc, pages.first)?)),
        None => Ok(None),
    }
}

/// The last page of a range in a value.
fn last_in(alloc: Global, value: &str) -> Result<Option<Text>, AllocError>
    ensures { IfOk result (λ page. page ≡ spec.last_in value.now) }
{
    let text = in_ascii(alloc, value)?;
    match pages_of(alloc, text.as_str().as_bytes())? {
        Some(pages) => match pages.last {
            Some(last) => Ok(Some(whole_page(alloc, last)?)),
            None => Ok(None),
        },
        None => Ok(None),
    }
}

/// A last page with what it shares with the first one.
fn whole_page(alloc: Global, page: LastPage<'_>) -> Result<Text, AllocError>
    requires { IsAscii (in_full page) }
    ensures { IfOk result (λ text. text ≡ in_full page.entry) }
{
    let mut bytes = Vec::new(alloc);
    bytes.extend_from_slice(page.shared)?;
    bytes.extend_from_slice(page.written)?;
    let text = ascii_text(alloc, &bytes)?;
    Ok(text)
}

/// The pages in a text, unless it is long.
fn pages_of(alloc: Global, text: &[u8]) -> Result<Option<Pages<'_>>, AllocError>
    ensures value { IfOk result (λ found. option_map range found ≡ spec.pages_of text.now) }
    ensures first_ascii { IfOk result (λ found. IfSome found (λ pages. IsAscii pages.first.now)) }
    ensures last_ascii { IfOk result (λ found. IfSome found (λ pages.
        IfSome pages.last (λ last. IsAscii (in_full last)))) }
{
    if is_short(text) {
        pages_in(alloc, text)
    } else {
        Ok(None)
    }
}
