//! Texts read once, and settled.

ghost use Rattle.std.specs.Prelude.{◌≡◌, IfOk, string_bytes};
ghost use Rattle.written_texts.specs.declared.readings.Role.TheVariants.{Identifier, Number, Other, Title};
ghost use Rattle.written_texts.specs.Readings as spec;

use crate::encoded::{decoded_again, unescaped};
use crate::laws::readings_are_utf8;
use latex_text::without_latex;
use retraction_remarks::without_remarks;
use std::alloc::{AllocError, Global};
use title_markup::plain_title;
use uri_text::Text;
use written_numbers::{identifier_text, number_text};

/// What a text is.
#[derive(Clone, Copy)]
pub enum Role {
    /// The title of a work: what is said of its retraction is no part of it.
    Title,
    /// Another text, such as a name.
    Other,
    /// A number, a date, a volume or a page.
    Number,
    /// An identifier of a work, such as a DOI.
    Identifier,
}

/// The text that a source has written.
///
/// It has at most as many bytes as the text. `AllocError` if an allocation failed.
#[tactic(auto, unfolding(crate::specs::Readings::written))]
pub fn read(alloc: Global, role: Role, text: &str) -> Result<Text, AllocError>
    ensures { IfOk result (λ read. read ≡ spec.written role text.now) }
{
    let once = read_once(alloc, role, text)?;
    if once.as_str() == text {
        return Ok(Text::new(once));
    }
    let again = read_once(alloc, role, once.as_str())?;
    if is_kept(text, once.as_str(), again.as_str()) {
        return Ok(Text::new(once));
    }
    Ok(Text::new(String::from_str(alloc, text)?))
}

/// Whether what was read counts: it is read as itself, not blank, and no longer.
fn is_kept(text: &str, once: &str, again: &str) -> bool
    ensures { result ≡ spec.is_kept text.now once.now again.now }
{
    again == once && !is_blank(once.as_bytes()) && once.len() <= text.len()
}

fn is_blank(text: &[u8]) -> bool
    ensures { result ≡ spec.is_blank text.now }
{
    text.iter().all(|byte| *byte <= b' ')
}

/// The text after one reading.
#[tactic(auto, unfolding(crate::specs::Readings::read_once))]
fn read_once(alloc: Global, role: Role, text: &str) -> Result<String, AllocError>
    ensures { IfOk result (λ once. string_bytes once ≡ spec.read_once role text.now) }
{
    match role {
        Role::Title => title(alloc, text),
        Role::Other => name(alloc, text),
        Role::Number => number(alloc, text),
        Role::Identifier => identifier(alloc, text),
    }
}

/// A title, without remarks.
#[tactic(auto, unfolding(crate::specs::Readings::read_once))]
fn title(alloc: Global, text: &str) -> Result<String, AllocError>
    ensures { IfOk result (λ title. string_bytes title ≡ spec.read_once Title text.now) }
{
    readings_are_utf8();
    let plain = plain_text(alloc, text)?;
    let title = String::from_utf8_lossy(alloc, without_remarks(&plain))?;
    Ok(title)
}

/// A name, or another text.
#[tactic(auto, unfolding(crate::specs::Readings::read_once))]
fn name(alloc: Global, text: &str) -> Result<String, AllocError>
    ensures { IfOk result (λ name. string_bytes name ≡ spec.read_once Other text.now) }
{
    readings_are_utf8();
    let plain = plain_text(alloc, text)?;
    let name = String::from_utf8_lossy(alloc, &plain)?;
    Ok(name)
}

/// A number in ASCII.
#[tactic(auto, unfolding(crate::specs::Readings::read_once))]
fn number(alloc: Global, text: &str) -> Result<String, AllocError>
    ensures { IfOk result (λ number. string_bytes number ≡ spec.read_once Number text.now) }
{
    let number = decoded_again(alloc, text)?;
    number_text(alloc, number.as_str())
}

/// An identifier without what a layout has put into it.
#[tactic(auto, unfolding(crate::specs::Readings::read_once))]
fn identifier(alloc: Global, text: &str) -> Result<String, AllocError>
    ensures { IfOk result (λ identifier. string_bytes identifier ≡ spec.read_once Identifier text.now) }
{
    let unescaped = unescaped(alloc, text)?;
    identifier_text(alloc, unescaped.as_str())
}

/// The text without commands, and then without markup.
fn plain_text(alloc: Global, text: &str) -> Result<Vec<u8>, AllocError>
    ensures { IfOk result (λ plain. plain.items ≡ spec.plain_text text.now) }
{
    let decoded = decoded_again(alloc, text)?;
    let text = without_latex(alloc, decoded.as_bytes())?;
    let plain = plain_title(alloc, &text)?;
    Ok(plain)
}
