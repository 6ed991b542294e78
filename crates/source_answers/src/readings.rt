//! The pairs of a reading.

ghost use Rattle.std.specs.Prelude.{◌≡◌, ◌++◌, IfOk, OnOk, string_bytes};
ghost use Rattle.source_answers.specs.Printed as spec;

use crate::shown::push_shown;
use openurl_reading::Reading;
use std::alloc::{AllocError, Global};

/// A line for each pair of a reading, with the key, a tab and the value, and `left out N` if N pairs were.
///
/// A text with control characters is in printable ASCII, and its other bytes are escapes, as `\x0a`. `AllocError` if an
/// allocation failed.
pub fn reading_text(alloc: Global, reading: &Reading) -> Result<String, AllocError>
    ensures { IfOk result (λ text. string_bytes text ≡ spec.reading_text reading.now) }
{
    let mut out = String::new(alloc);
    let pairs = reading.pairs();
    for index in 0..pairs.len() {
        let (key, value) = pairs.pair(index);
        push_pair(&mut out, key, value)?;
    }
    push_left_out(&mut out, reading.left_out())?;
    Ok(out)
}

fn push_pair(out: &mut String, key: &str, value: &str) -> Result<(), AllocError>
    ensures { OnOk result (string_bytes out.new
        ≡ string_bytes out.old ++ spec.pair_line record { key = key.now; value = value.now }) }
{
    push_shown(out, key)?;
    out.push('\t')?;
    push_shown(out, value)?;
    out.push('\n')
}

fn push_left_out(out: &mut String, number: usize) -> Result<(), AllocError>
    ensures { OnOk result (string_bytes out.new ≡ string_bytes out.old ++ spec.left_out_line number) }
{
    if number == 0 {
        return Ok(());
    }
    write!(out, "left out {number}\n")
}
