//! The source of a request.

ghost use Rattle.std.specs.Prelude.{◌≡◌, IfOk, codes, map, take};
ghost use Rattle.kev_read.specs.Pairs.{all_of};
ghost use Rattle.openurl_reading.specs.Steps.{taken};
ghost use Rattle.openurl_reading.specs.Referrers as spec;

use crate::change::{Change, changed};
use crate::pairs::{Pairs, copy};
use std::alloc::{AllocError, Global};
use uri_text::Text;

/// The namespace of the identifiers of referrers (RFC 4452).
const NAMESPACE: &str = "info:sid/";

/// The source that OpenURL 0.1 names is the referrer, unless there is one.
pub(crate) fn name_referrer(alloc: Global, pairs: Pairs) -> Result<Pairs, AllocError>
    ensures { IfOk result (λ after. after ≡ taken pairs spec.referrer_step) }
{
    let change = referred(alloc, &pairs)?;
    changed(alloc, "rfr_id", change, pairs)
}

fn referred(alloc: Global, pairs: &Pairs) -> Result<Change, AllocError>
    ensures { IfOk result (λ change. change ≡ spec.referred pairs.now) }
{
    if pairs.first("rfr_id").is_some() {
        return Ok(Change::unchanged(alloc));
    }
    Ok(Change::leading(referrers(alloc, pairs)?))
}

/// The identifier of the referrer that the first source is, if there is one.
fn referrers(alloc: Global, pairs: &Pairs) -> Result<Vec<Text>, AllocError>
    ensures { IfOk result (λ ids. ids.items ≡ map spec.referrer_of (take 1 (all_of pairs.now (codes "sid")))) }
{
    let mut ids = Vec::new(alloc);
    match pairs.first("sid") {
        Some(sid) => {
            ids.push(referrer_of(alloc, sid)?)?;
            Ok(ids)
        }
        None => Ok(ids),
    }
}

/// The identifier of the referrer that a source is.
fn referrer_of(alloc: Global, sid: &str) -> Result<Text, AllocError>
    ensures { IfOk result (λ id. id ≡ spec.referrer_of sid.now) }
{
    if sid.as_bytes().starts_with(NAMESPACE.as_bytes()) {
        return copy(alloc, sid);
    }
    let mut id = String::from_str(alloc, NAMESPACE)?;
    id.push_str(sid)?;
    Ok(Text::new(id))
}
