//! The format of a request.

ghost use Rattle.std.specs.Prelude.{◌≡◌, IfOk};
ghost use Rattle.openurl_reading.specs.Steps.{taken};
ghost use Rattle.openurl_reading.specs.Formats as spec;

use crate::change::{Change, changed};
use crate::kinds::kind_of;
use crate::pairs::{Pairs, copy};
use std::alloc::{AllocError, Global};

/// The format is that of a book, a dissertation or a journal, unless the request names one or is empty.
pub(crate) fn name_format(alloc: Global, pairs: Pairs) -> Result<Pairs, AllocError>
    ensures { IfOk result (λ after. after ≡ taken pairs spec.format_step) }
{
    let change = formatted(alloc, &pairs)?;
    changed(alloc, "rft_val_fmt", change, pairs)
}

#[tactic(auto, using(crate::proofs::Formatted::empty, crate::proofs::Formatted::named, crate::proofs::Formatted::new))]
fn formatted(alloc: Global, pairs: &Pairs) -> Result<Change, AllocError>
    ensures { IfOk result (λ change. change ≡ spec.formatted pairs.now) }
{
    if pairs.has("rft_val_fmt") {
        return Ok(Change::unchanged(alloc));
    }
    if pairs.len() == 0 {
        return Ok(Change::unchanged(alloc));
    }
    let mut values = Vec::new(alloc);
    values.push(copy(alloc, kind_of(pairs).format())?)?;
    Ok(Change::leading(values))
}
