//! Titles without markup and with single spaces.

ghost use Rattle.std.specs.Prelude.{◌≡◌, IfOk};
ghost use Rattle.title_markup.specs.Spaces as spec;

use crate::spaces::with_single_spaces;
use crate::titles::without_markup;
use std::alloc::{AllocError, Global};

/// The title without markup, and then with single spaces.
///
/// It may have any bytes. Reading twice may read more: `<a\tb>` is a tag only with a space in the place of the tab.
/// `AllocError` if an allocation failed.
pub fn plain_title(alloc: Global, title: &[u8]) -> Result<Vec<u8>, AllocError>
    ensures { IfOk result (λ text. text.items ≡ spec.plain_title title.now) }
{
    let text = without_markup(alloc, title)?;
    let plain = with_single_spaces(alloc, &text)?;
    Ok(plain)
}
