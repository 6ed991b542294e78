//! Spaces in titles.

ghost use Rattle.std.specs.Prelude.{◌≡◌, ◌++◌, IfOk, OnOk};
ghost use Rattle.title_markup.specs.Spaces as spec;

use crate::titles::is_blank;
use std::alloc::{AllocError, Global};

fn is_space(byte: u8) -> bool
    ensures { result ≡ spec.is_space byte }
{
    byte <= b' ' || byte == 0x7f
}

/// Appends a byte that is no space, after a space if there is a gap before it.
fn push_written(
    text: &mut Vec<u8>,
    is_space: bool,
    has_gap: bool,
    byte: u8,
) -> Result<(), AllocError>
    ensures { OnOk result (text.new.items ≡ text.old.items ++ spec.written is_space has_gap byte) }
{
    if is_space {
        return Ok(());
    }
    if has_gap {
        text.push(b' ')?;
    }
    text.push(byte)?;
    Ok(())
}

/// The words of a text, with one space between two of them.
#[tactic(auto, unfolding(crate::specs::Spaces::words))]
fn words(alloc: Global, text: &[u8]) -> Result<Vec<u8>, AllocError>
    ensures { IfOk result (λ words. words.items ≡ spec.words text.now) }
{
    let mut words = Vec::with_capacity(alloc, text.len())?;
    let mut has_begun = false;
    let mut has_gap = false;
    for byte in text {
        let is_space = is_space(*byte);
        push_written(&mut words, is_space, has_begun && has_gap, *byte)?;
        has_begun = has_begun || !is_space;
        has_gap = is_space;
    }
    Ok(words)
}

/// The title with one space for each run of spaces and control characters, and none at its ends; one of spaces alone as
/// it is.
///
/// It may have any bytes. Spaces are those of ASCII. `AllocError` if an allocation failed.
pub fn with_single_spaces(alloc: Global, title: &[u8]) -> Result<Vec<u8>, AllocError>
    ensures { IfOk result (λ text. text.items ≡ spec.with_single_spaces title.now) }
{
    let words = words(alloc, title)?;
    if is_blank(&words) {
        let unread = Vec::from_slice(alloc, title)?;
        return Ok(unread);
    }
    Ok(words)
}
