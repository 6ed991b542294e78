//! The names of months in a text.

ghost use Rattle.std.specs.Prelude.{◌≡◌, ◌<◌, ◌≤◌, IfOk, IfSome};
ghost use Rattle.text_model.specs.Texts.{texts_of};
ghost use Rattle.publication_dates.specs.Months as spec;

use crate::parts::words;
use std::alloc::{AllocError, Global};
use uri_text::begins_in_any_case;

/// The names of the months in English.
fn month_names() -> &'static [&'static str]
    ensures { texts_of result.now ≡ spec.month_names }
{
    &[
        "january",
        "february",
        "march",
        "april",
        "may",
        "june",
        "july",
        "august",
        "september",
        "october",
        "november",
        "december",
    ]
}

/// The month, 1 to 12, that a word means by three letters of its name or more.
fn month_of(word: &[u8]) -> Option<usize>
    ensures value { result ≡ spec.month_of word.now }
    ensures bound { IfSome result (λ month. month ≤ 12) }
{
    if word.len() < 3 {
        return None;
    }
    let names = month_names();
    for (index, name) in names.iter().enumerate() {
        if begins_in_any_case(name.as_bytes(), word) {
            return Some(index + 1);
        }
    }
    None
}

/// The first month that a word of the text means.
pub(crate) fn month_in(alloc: Global, text: &[u8]) -> Result<Option<usize>, AllocError>
    ensures value { IfOk result (λ month. month ≡ spec.first_month (spec.words text.now)) }
    ensures bound { IfOk result (λ month. IfSome month (λ n. n ≤ 12)) }
{
    let found = words(alloc, text)?;
    for word in &found {
        if let Some(month) = month_of(word) {
            return Ok(Some(month));
        }
    }
    Ok(None)
}

/// The month in two digits.
pub(crate) fn digits_of(month: usize) -> [u8; 2]
    requires { month < 100 }
    ensures { result ≡ spec.digits_of month }
{
    [b'0' + (month / 10) as u8, b'0' + (month % 10) as u8]
}
