//! The forms that cells should have.

ghost use Rattle.std.specs.Prelude.{◌≡◌};
ghost use Rattle.table_inspection.specs.Cells as spec;
ghost use Rattle.table_inspection.specs.Private.Forms.{fits};

use crate::number::are_digits;
use menu::is_web_link;

/// The form that the cells of a column should have.
#[derive(Clone, Copy)]
pub(crate) enum Form {
    /// A date: a year, a month or a day.
    Date,
    /// A link that begins with `http://` or `https://`.
    WebLink,
}

/// Whether a cell has the form.
pub(crate) fn fits(form: Form, cell: &str) -> bool
    ensures { result ≡ fits form cell.now }
{
    match form {
        Form::Date => is_date(cell),
        Form::WebLink => is_web_link(cell),
    }
}

/// Whether a text is `YYYY`, `YYYY-MM` or `YYYY-MM-DD`.
fn is_date(text: &str) -> bool
    ensures { result ≡ spec.is_date text.now }
{
    let bytes = text.as_bytes();
    is_year(bytes) || is_month(bytes) || is_day(bytes)
}

fn is_year(date: &[u8]) -> bool
    ensures { result ≡ spec.is_year date.now }
{
    date.len() == 4 && are_digits(date)
}

fn is_month(date: &[u8]) -> bool
    ensures { result ≡ spec.is_month date.now }
{
    date.len() == 7 && are_digits(&date[..4]) && is_part(&date[4..], 12)
}

fn is_day(date: &[u8]) -> bool
    ensures { result ≡ spec.is_day date.now }
{
    date.len() == 10
        && are_digits(&date[..4])
        && is_part(&date[4..7], 12)
        && is_part(&date[7..], 31)
}

/// Whether these are a hyphen and two digits, from 01 to `last`.
fn is_part(part: &[u8], last: u8) -> bool
    ensures { result ≡ spec.is_part last part.now }
{
    match part {
        [b'-', tens, units] if tens.is_ascii_digit() && units.is_ascii_digit() => {
            let number = 10 * (*tens - b'0') + (*units - b'0');
            (1..=last).contains(&number)
        }
        _ => false,
    }
}
