//! All steps, in order.

ghost use Rattle.std.specs.Prelude.{◌≡◌, IfOk};
ghost use Rattle.openurl_reading.specs.Reading as spec;

use crate::citations::read_citation;
use crate::dates::lead_date;
use crate::dublin_core::copy_elements;
use crate::fields::copy_fields;
use crate::formats::name_format;
use crate::identified_numbers::lead_identified;
use crate::identifiers::name_works;
use crate::numbers::{lead_eissn, lead_isbn, lead_issn};
use crate::old_keys::copy_old_keys;
use crate::pages::lead_pages;
use crate::pairs::Pairs;
use crate::referrer::name_referrer;
use crate::texts::read_texts;
use crate::titles::copy_title;
use crate::versions::correct_versions;
use crate::volumes::lead_volumes;
use std::alloc::{AllocError, Global};

/// The pairs after all steps.
pub(crate) fn normal_form(alloc: Global, pairs: Pairs) -> Result<Pairs, AllocError>
    ensures { IfOk result (λ after. after ≡ spec.normal_form pairs) }
{
    let pairs = correct_versions(alloc, pairs)?;
    let pairs = copy_fields(alloc, pairs)?;
    let pairs = copy_old_keys(alloc, pairs)?;
    let pairs = lead_identified(alloc, pairs)?;
    let pairs = copy_elements(alloc, pairs)?;
    let pairs = copy_title(alloc, pairs)?;
    let pairs = name_format(alloc, pairs)?;
    let pairs = read_citation(alloc, pairs)?;
    let pairs = read_texts(alloc, pairs)?;
    let pairs = name_referrer(alloc, pairs)?;
    let pairs = lead_issn(alloc, pairs)?;
    let pairs = lead_eissn(alloc, pairs)?;
    let pairs = lead_isbn(alloc, pairs)?;
    let pairs = lead_date(alloc, pairs)?;
    let pairs = lead_volumes(alloc, pairs)?;
    let pairs = lead_pages(alloc, pairs)?;
    let pairs = name_works(alloc, pairs)?;
    Ok(pairs)
}
