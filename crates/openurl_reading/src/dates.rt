//! The date of a request.

ghost use Rattle.std.specs.Prelude.{◌≡◌, IfOk};
ghost use Rattle.publication_dates.specs.Dates.{date_in};
ghost use Rattle.openurl_reading.specs.Steps.{taken};
ghost use Rattle.openurl_reading.specs.Dates as spec;
ghost use Rattle.openurl_reading.specs.Values.{searched};

use crate::change::{lead, without};
use crate::pairs::Pairs;
use crate::searched::{in_ascii, searched};
use publication_dates::date_in;
use std::alloc::{AllocError, Global};
use uri_text::Text;

/// The first date that can be read leads. If none can, `rft.date` goes.
pub(crate) fn lead_date(alloc: Global, pairs: Pairs) -> Result<Pairs, AllocError>
    ensures { IfOk result (λ after. after ≡ taken pairs spec.date_step) }
{
    let date = first_date(alloc, &pairs)?;
    if date.is_none() {
        return Ok(without("rft.date", pairs));
    }
    lead(alloc, "rft.date", date, pairs)
}

/// The first date that can be read.
pub(crate) fn first_date(alloc: Global, pairs: &Pairs) -> Result<Option<Text>, AllocError>
    ensures { IfOk result (λ date. date ≡ spec.first_date spec.date_keys pairs.now) }
{
    if let Some(date) = date_under(alloc, pairs, "rft.date")? {
        return Ok(Some(date));
    }
    if let Some(date) = date_under(alloc, pairs, "rft.year")? {
        return Ok(Some(date));
    }
    if let Some(date) = date_under(alloc, pairs, "date")? {
        return Ok(Some(date));
    }
    let date = date_under(alloc, pairs, "year")?;
    Ok(date)
}

/// The date in the first value of a key.
fn date_under(alloc: Global, pairs: &Pairs, key: &str) -> Result<Option<Text>, AllocError>
    ensures { IfOk result (λ date. date ≡ spec.date_under pairs.now key.now) }
{
    match pairs.first(key) {
        Some(value) => date_of(alloc, value),
        None => Ok(None),
    }
}

/// The date in a value.
pub(crate) fn date_of(alloc: Global, value: &str) -> Result<Option<Text>, AllocError>
    ensures { IfOk result (λ date. date ≡ date_in (searched value.now)) }
{
    let text = in_ascii(alloc, value)?;
    date_in(alloc, searched(&text))
}
