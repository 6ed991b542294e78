//! The expansion of a template for a query.

ghost use Rattle.std.specs.Prelude.{◌≡◌, IfOk, IfErr};
ghost use Rattle.text_model.specs.Texts.{texts_of};
ghost use Rattle.uri_grammar.specs.Texts.{IsTemplate};
ghost use Rattle.answers.specs.Expansion.{IsExpansionOf, names_of};
ghost use Rattle.answers.specs.Reading.{IsNoTemplate};
ghost use Rattle.answers.specs.Results.{text_result};

use crate::line::ended;
use crate::refusal::Refusal;
use crate::request::{environment, request_of};
use std::alloc::{AllocError, Global};
use uri_grammar::TemplateErrorKind;
use uri_template::{Template, expand};

/// The line of the template's expansion for the query, in which `rft.au`, `rft_id` and the names in `options`, each
/// `--list` and then a name, are lists. A template has at most 8,192 bytes.
pub fn expansion_of(
    alloc: Global,
    options: &[&str],
    template: &str,
    query: &str,
) -> Result<String, Refusal>
    ensures { IsExpansionOf (names_of (texts_of options.now)) template.now query.now (text_result result) }
{
    let template = template_of(alloc, template)?;
    let request = request_of(alloc, query)?;
    let lists = list_names(alloc, options)?;
    let text = expand(alloc, &template, &environment(alloc, &lists, &request)?);
    Ok(ended(text?)?)
}

/// The names in the options.
fn list_names<'a>(alloc: Global, options: &[&'a str]) -> Result<Vec<&'a str>, AllocError>
    ensures { IfOk result (λ names. texts_of names.items ≡ names_of (texts_of options.now)) }
{
    let mut names = Vec::new(alloc);
    let mut rest = options;
    while let [_, name, after @ ..] = rest {
        names.push(*name)?;
        rest = after;
    }
    Ok(names)
}

/// The template of a text.
fn template_of(alloc: Global, text: &str) -> Result<Template, Refusal>
    ensures ok { IfOk result (λ template. IsTemplate text.now template.parts) }
    ensures err { IfErr result (IsNoTemplate text.now) }
{
    match Template::parse(alloc, text) {
        Ok(template) => Ok(template),
        Err(e) if e.kind == TemplateErrorKind::NoMemory => Err(Refusal::Memory),
        Err(e) => Err(Refusal::Template(e)),
    }
}
