//! The last page of a range.

ghost use Rattle.std.specs.Prelude.{◌≡◌, ◌+◌, ◌≤◌, length};
ghost use Rattle.std.specs.Option.{option_map};
ghost use Rattle.article_places.specs.LastPages as spec;
ghost use Rattle.article_places.specs.PageForms.{digits};
ghost use Rattle.article_places.specs.Pages.{in_full};

use crate::page_forms::{digits, roman};
use crate::pages::LastPage;
use crate::words::letters;

/// Whether the last page has other letters than the first one, or one of them is a Roman numeral.
fn is_apart(first: &[u8], last: &[u8]) -> bool
    ensures { result ≡ spec.is_apart first.now last.now }
{
    digits(first) == 0 || digits(last) == 0 || letters(last) > 0 && roman(first) != roman(last)
}

/// How many digits the last page lacks.
fn missing(first: &[u8], last: &[u8]) -> usize
    ensures value { result ≡ spec.missing first.now last.now }
    ensures within { result ≤ digits first.now }
{
    digits(first).saturating_sub(digits(last))
}

/// The digits of a page without the first ones.
fn digits_after(count: usize, page: &[u8]) -> &[u8]
    requires { count ≤ digits page.now }
    ensures { result.now ≡ spec.digits_after count page.now }
{
    let left = digits(page) - count;
    let rest = page.split_at(letters(page) + count).1;
    rest.split_at(left).0
}

/// Whether the first digits are less than the others.
fn is_less(digits: &[u8], others: &[u8]) -> bool
    ensures { result ≡ spec.is_less digits.now others.now }
{
    match digits {
        [] => false,
        [b, bs @ ..] => match others {
            [] => false,
            [c, cs @ ..] => *b < *c || *b == *c && is_less(bs, cs),
        },
    }
}

/// Whether the last page is after the first one.
fn is_later(first: &[u8], last: &[u8]) -> bool
    ensures { result ≡ spec.is_later first.now last.now }
{
    let begins = digits_after(missing(first, last), first);
    let ends = digits_after(0, last);
    digits(first) < digits(last)
        || is_less(begins, ends)
        || digits(first) == digits(last) && begins == ends
}

/// The last page in full; `None` if it would be before the first one.
pub(crate) fn last_page<'a>(first: &'a [u8], last: &'a [u8]) -> Option<LastPage<'a>>
    ensures { option_map in_full result ≡ spec.last_page first.now last.now }
{
    if is_apart(first, last) {
        return Some(LastPage {
            shared: b"",
            written: last,
        });
    }
    if !is_later(first, last) {
        return None;
    }
    Some(LastPage {
        shared: first.split_at(letters(first) + missing(first, last)).0,
        written: last.split_at(letters(last)).1,
    })
}
