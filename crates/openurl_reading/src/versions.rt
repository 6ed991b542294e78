//! The versions and the encoding of a request.

ghost use Rattle.std.specs.Prelude.{◌≡◌, IfOk};
ghost use Rattle.openurl_reading.specs.Steps.{after, taken};
ghost use Rattle.openurl_reading.specs.Versions as spec;

use crate::change::{Change, changed};
use crate::pairs::{Pairs, copy};
use std::alloc::{AllocError, Global};

/// The only version of OpenURL that the program accepts.
const VERSION: &str = "Z39.88-2004";

/// The encoding of readings, as the registry of OpenURL 1.0 names it.
const ENCODING: &str = "info:ofi/enc:UTF-8";

/// Corrects both versions and the encoding if they are other ones.
pub(crate) fn correct_versions(alloc: Global, pairs: Pairs) -> Result<Pairs, AllocError>
    ensures { IfOk result (λ corrected. corrected ≡ after spec.versions pairs) }
{
    let pairs = correct(alloc, "ctx_ver", VERSION, pairs)?;
    let pairs = correct(alloc, "url_ver", VERSION, pairs)?;
    let pairs = correct(alloc, "ctx_enc", ENCODING, pairs)?;
    Ok(pairs)
}

/// Corrects the value of a key if it is another one.
fn correct(alloc: Global, key: &str, value: &str, pairs: Pairs) -> Result<Pairs, AllocError>
    ensures { IfOk result (λ after. after ≡ taken pairs (spec.correction key.now value.now)) }
{
    let change = corrected(alloc, key, value, &pairs)?;
    changed(alloc, key, change, pairs)
}

fn corrected(alloc: Global, key: &str, value: &str, pairs: &Pairs) -> Result<Change, AllocError>
    ensures { IfOk result (λ change. change ≡ spec.corrected key.now value.now pairs.now) }
{
    match pairs.first(key) {
        Some(stated) if stated != value => {
            let mut values = Vec::new(alloc);
            values.push(copy(alloc, value)?)?;
            Ok(Change::replacing(values))
        }
        _ => Ok(Change::unchanged(alloc)),
    }
}
