//! What a request says of a retraction.

ghost use Rattle.std.specs.Prelude.{◌≡◌, IfOk};
ghost use Rattle.text_model.specs.Texts.{texts_of};
ghost use Rattle.openurl_reading.specs.Retractions as spec;

use crate::keys::is_one_of;
use crate::pairs::{Pair, Pairs};
use retraction_remarks::without_remarks;
use std::alloc::{AllocError, Global};
use written_texts::{Role, read};

/// Whether a title of a request has a remark that its work was retracted.
pub(crate) fn is_retracted(alloc: Global, pairs: &Pairs) -> Result<bool, AllocError>
    ensures { IfOk result (λ is. is ≡ spec.is_retracted pairs.now) }
{
    for pair in pairs.as_slice() {
        if is_remarked(alloc, pair)? {
            return Ok(true);
        }
    }
    Ok(false)
}

fn is_remarked(alloc: Global, pair: &Pair) -> Result<bool, AllocError>
    ensures { IfOk result (λ is. is ≡ spec.is_remarked pair.now) }
{
    if !is_one_of(sent_titles(), pair.key()) {
        return Ok(false);
    }
    has_remark(alloc, pair.value())
}

/// Whether the text of a title is another one without remarks.
fn has_remark(alloc: Global, title: &str) -> Result<bool, AllocError>
    ensures { IfOk result (λ has. has ≡ spec.has_remark title.now) }
{
    let text = read(alloc, Role::Other, title)?;
    let text = text.as_str().as_bytes();
    Ok(without_remarks(text) != text)
}

/// The keys of titles, in OpenURL 1.0 and in OpenURL 0.1.
pub(crate) fn sent_titles() -> &'static [&'static str]
    ensures { texts_of result.now ≡ spec.sent_titles }
{
    &[
        "rft.atitle",
        "rft.jtitle",
        "rft.btitle",
        "rft.title",
        "atitle",
        "jtitle",
        "btitle",
        "title",
    ]
}
