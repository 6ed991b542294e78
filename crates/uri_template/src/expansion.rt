//! The expansion of a template: its expressions, and the whole.

ghost use Rattle.std.specs.Prelude.{◌≡◌, ◌++◌, ◌&&◌, is_none, OnOk, IfOk, string_bytes};
ghost use Rattle.environment_model.specs.Environment.{look_up};
ghost use Rattle.text_model.specs.UriText.{IsUriText};
ghost use Rattle.uri_template.specs.Expansion.{style_of, piece, pieces, led, part_text, expansion};
ghost use Rattle.uri_template.specs.Private.Pieces.{led_piece};

use crate::pieces::{push_list, push_text};
use crate::style::Style;
use crate::variables::Variables;
use std::alloc::{AllocError, Global};
use target_vars::Env;
use uri_grammar::{Op, Part, Spec, Template};

/// Appends the piece of a variable, after `first` or `sep`, or nothing if it is undefined. Returns whether the first
/// defined variable is still to come.
fn push_variable<V: Variables>(
    out: &mut String,
    style: &Style,
    spec: &Spec,
    variables: &V,
    is_first: bool,
) -> Result<bool, AllocError>
    ensures bytes { OnOk result (string_bytes out.new ≡ string_bytes out.old
        ++ led_piece style.now is_first (piece style.now spec.now (V.look variables.now spec.now.name))) }
    ensures still_first { IfOk result (λ still_first. still_first
        ≡ (is_first && is_none (piece style.now spec.now (V.look variables.now spec.now.name)))) }
{
    let lead = if is_first { style.first } else { style.sep };
    let name = spec.name.as_str();
    if let Some(text) = variables.text(name) {
        push_text(out, lead, style, spec, text)?;
        return Ok(false);
    }
    let members = variables.list(name);
    if spec.cut > 0 || members.is_empty() {
        return Ok(is_first);
    }
    push_list(out, lead, style, spec, &members)?;
    Ok(false)
}

fn push_expression<V: Variables>(
    out: &mut String,
    op: Op,
    specs: &[Spec],
    variables: &V,
) -> Result<(), AllocError>
    ensures { OnOk result (string_bytes out.new ≡ string_bytes out.old
        ++ led (style_of op) (pieces (V.look variables.now) (style_of op) specs.now)) }
{
    let style = Style::of(op);
    let mut is_first = true;
    for spec in specs {
        is_first = push_variable(out, &style, spec, variables, is_first)?;
    }
    Ok(())
}

fn push_part<V: Variables>(out: &mut String, part: &Part, variables: &V) -> Result<(), AllocError>
    ensures { OnOk result (string_bytes out.new ≡ string_bytes out.old ++ part_text (V.look variables.now) part.now) }
{
    match part {
        Part::Literal(text) => out.push_str(text.as_str()),
        Part::Expression { op, specs } => push_expression(out, *op, specs.as_slice(), variables),
    }
}

/// The expansion of the template (RFC 6570, section 3) with any variables: a variable with a prefix is
/// looked up as a text, any other as the text or the list that its name denotes.
///
/// `AllocError` if an allocation failed.
pub fn expand_in<V: Variables>(
    alloc: Global,
    template: &Template,
    variables: &V,
) -> Result<String, AllocError>
    ensures ok { IfOk result (λ text. string_bytes text ≡ expansion (V.look variables.now) template.now.parts) }
    ensures uri_text { IfOk result (λ text. IsUriText (string_bytes text)) }
{
    // A link is about as long as its template.
    let mut out = String::with_capacity(alloc, template.text().len())?;
    for part in template.parts() {
        push_part(&mut out, part, variables)?;
    }
    Ok(out)
}

/// The expansion of the template (RFC 6570, section 3) in an environment, as [`expand_in`] gives it.
pub fn expand(alloc: Global, template: &Template, env: &Env) -> Result<String, AllocError>
    ensures ok { IfOk result (λ text. string_bytes text ≡ expansion (look_up env.now.entries) template.now.parts) }
    ensures uri_text { IfOk result (λ text. IsUriText (string_bytes text)) }
{
    expand_in(alloc, template, env)
}
