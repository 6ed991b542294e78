//! The title of a request of OpenURL 0.1.

ghost use Rattle.std.specs.Prelude.{◌≡◌, IfOk};
ghost use Rattle.openurl_reading.specs.Steps.{after};
ghost use Rattle.openurl_reading.specs.Titles as spec;

use crate::kinds::kind_of;
use crate::old_keys::copy_key;
use crate::pairs::Pairs;
use std::alloc::{AllocError, Global};

/// The title is that of a book, a dissertation or a journal, unless the request has one of these.
pub(crate) fn copy_title(alloc: Global, pairs: Pairs) -> Result<Pairs, AllocError>
    ensures { IfOk result (λ titled. titled ≡ after spec.titlings pairs) }
{
    if is_titled(&pairs) {
        return Ok(pairs);
    }
    let key = kind_of(&pairs).title_key();
    let pairs = copy_key(alloc, "title", key, pairs)?;
    Ok(pairs)
}

/// Whether a request has the title of a book, a dissertation or a journal.
fn is_titled(pairs: &Pairs) -> bool
    ensures { result ≡ spec.is_titled pairs.now }
{
    pairs.has("rft.btitle") || pairs.has("rft.title") || pairs.has("rft.jtitle")
}
