//! Templates whose expansion is never a web link.

ghost use Rattle.std.specs.Prelude.{◌≡◌, IfOk, string_bytes};
ghost use Rattle.rule_lint.specs.WebLink.{first_text as text_before_expressions, has_expression as has_any_expression};
ghost use Rattle.rule_lint.specs.WebLink.{begins_web_links as may_begin, is_never_web_link as never_web_link};

use menu::is_web_link;
use std::alloc::{AllocError, Global};
use uri_grammar::Part;
use uri_text::begins_in_any_case;

fn first_text(alloc: Global, parts: &[Part]) -> Result<String, AllocError>
    ensures { IfOk result (λ text. string_bytes text ≡ text_before_expressions parts.now) }
{
    let mut out = String::new(alloc);
    for part in parts {
        match part {
            Part::Literal(text) => out.push_str(text.as_str())?,
            Part::Expression { .. } => return Ok(out),
        }
    }
    Ok(out)
}

fn has_expression(parts: &[Part]) -> bool
    ensures { result ≡ has_any_expression parts.now }
{
    for part in parts {
        if let Part::Expression { .. } = part {
            return true;
        }
    }
    false
}

fn begins_web_links(text: &str) -> bool
    ensures { result ≡ may_begin text.now }
{
    let text = text.as_bytes();
    begins_in_any_case(b"http://", text) || begins_in_any_case(b"https://", text)
}

/// Whether the text before the first expression rules out a web link.
pub(crate) fn is_never_web_link(alloc: Global, parts: &[Part]) -> Result<bool, AllocError>
    ensures { IfOk result (λ never. never ≡ never_web_link parts.now) }
{
    let text = first_text(alloc, parts)?;
    let text = text.as_str();
    Ok(!(is_web_link(text) || (has_expression(parts) && begins_web_links(text))))
}
