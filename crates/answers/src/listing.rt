//! The listing of a code file.

ghost use Rattle.answers.specs.Listing.{IsListingOf};
ghost use Rattle.answers.specs.Results.{text_result};

use crate::reading::read_code;
use crate::refusal::Refusal;
use std::alloc::Global;

/// The listing of the code of a code file, which need not be accepted by the verifier.
pub fn listing_of(alloc: Global, bytes: &[u8]) -> Result<String, Refusal>
    ensures { IsListingOf bytes.now (text_result result) }
{
    let listing = read_code(alloc, bytes)?.listing(alloc);
    Ok(listing?)
}
