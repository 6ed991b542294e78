//! A template, and reading it.

ghost use Rattle.std.specs.Prelude.{◌≡◌, ◌<◌, ◌≤◌, ◌⊎◌, All, IfOk, IfErr, length, encode_utf8_all};
ghost use Rattle.uri_grammar.specs.Templates.{Spells};
ghost use Rattle.uri_grammar.specs.Faults.{IsFirstFault};
ghost use Rattle.uri_grammar.specs.Private.Reading.{IsFault};
ghost use Rattle.uri_grammar.specs.Texts.{IsTemplate, IsRefusedTemplate};
ghost use Rattle.uri_grammar.specs.Promises.{IsSoundPart};
ghost use Rattle.uri_grammar.specs.declared.error.TemplateErrorKind.TheVariants.{NoMemory, TooLong};

use crate::characters::{byte_len, chars_of};
use crate::error::{TemplateError, TemplateErrorKind};
use crate::expressions::expression;
use crate::literals::{literal, literals_len};
use crate::names::MAX_NAME_BYTES;
use crate::parts::Part;
use crate::variables::MAX_PREFIX;
use std::alloc::Global;
use std::marker::Model;
use uri_text::Text;

/// The maximum size of a template, in bytes.
pub const MAX_BYTES: usize = 8192;

/// A template: its text and its tree (RFC 6570, section 2).
///
/// Differences from RFC 6570, each with its test:
/// - The apostrophe is a literal (`test_other_texts` in `tests/commands/test_templates.py`).
/// - The operators that the RFC reserves are errors (`test_braces_and_operators` in
///   `tests/commands/test_template_errors.py`).
/// - A template has at most 8,192 bytes, and a name at most 255 (`test_limits` in
///   `tests/commands/test_template_errors.py`).
/// - There are no associative arrays: a variable is a text or a list (`test_examples_of_the_standard` in
///   `tests/commands/test_rfc6570.py` has the RFC's other examples).
/// - A list with a prefix is undefined (`test_lists` in `tests/commands/test_templates.py`).
#[derive(Drop)]
pub struct Template {
    text: Text,
    parts: Vec<Part>,
}

impl Model for Template {
    ghost use Rattle.uri_grammar.specs.Texts.{Parsed, IsTemplate};

    ghost Value = { Parsed };

    ghost view = { λ template. record { text = template.text; parts = template.parts.items } };

    ghost invariant = { λ template. IsTemplate template.text template.parts.items };
}

impl Template {
    /// Reads a template of at most 8,192 bytes. Any other text is rejected, with the kind and the place of its first
    /// error. A text that is too long is never reported as out of memory. The clause `limits` says what the limits of
    /// every template are.
    pub fn parse(alloc: Global, text: &str) -> Result<Template, TemplateError>
        ensures limits { (MAX_BYTES ≡ 8192) × (MAX_NAME_BYTES ≡ 255) × (MAX_PREFIX ≡ 9999) }
        ensures text { IfOk result (λ template. template.text ≡ text.now) }
        ensures ok { IfOk result (λ template. IsTemplate text.now template.parts) }
        ensures err { IfErr result
            (λ e. (e ≡ record { kind = NoMemory; at = 0 }) ⊎ IsRefusedTemplate text.now e.kind e.at) }
        ensures too_long { MAX_BYTES < length text.now → IfErr result (λ e. e.kind ≡ TooLong) }
    {
        if text.len() > MAX_BYTES {
            return Err(TemplateError::new(TemplateErrorKind::TooLong, MAX_BYTES));
        }
        let chars = chars_of(alloc, text)?;
        match read(alloc, &chars) {
            Ok(parts) => Ok(Template {
                text: Text::new(String::from_str(alloc, text)?),
                parts,
            }),
            Err(e) => Err(e),
        }
    }

    /// The text that was parsed.
    pub fn text(&self) -> &str
        ensures { result.now ≡ self.now.text }
    {
        self.text.as_str()
    }

    /// The tree: literals and expressions. No literal is empty or next to another.
    pub fn parts(&self) -> &[Part]
        ensures parts { result.now ≡ self.now.parts }
        ensures spelled { IsTemplate self.now.text self.now.parts }
        ensures sound { All IsSoundPart self.now.parts }
    {
        &self.parts
    }
}

/// The parts of the template with these characters, read from left to right.
fn read(alloc: Global, chars: &[char]) -> Result<Vec<Part>, TemplateError>
    requires { length (encode_utf8_all chars.now) ≤ MAX_BYTES }
    ensures ok { IfOk result (λ parts. Spells chars.now parts.items) }
    ensures err { IfErr result (λ e. IsFault e (IsFirstFault chars.now)) }
{
    let mut parts = Vec::new(alloc);
    let mut done = 0;
    while done < chars.len() {
        let (front, rest) = chars.split_at(done);
        let len = literals_len(rest);
        if len > 0 {
            parts.push(literal(alloc, rest.split_at(len).0)?)?;
            done += len;
        } else {
            match expression(alloc, rest) {
                Ok((part, len)) => {
                    parts.push(part)?;
                    done += len;
                }
                Err(e) => return Err(e.after(byte_len(front))),
            }
        }
    }
    Ok(parts)
}
