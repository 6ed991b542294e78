//! The values of names.

ghost use Rattle.std.specs.Prelude.{◌≡◌, ◌++◌, OnOk, string_bytes};
ghost use Rattle.std.specs.List.{flat_map};
ghost use Rattle.text_model.specs.Texts.{texts_of};
ghost use Rattle.rule_explanation.specs.Explanation.{meaning_text, name_line};

use printed_text::push_shortened;
use std::alloc::AllocError;
use uri_template::Variables;

/// Appends the value of a name.
fn push_meaning<V: Variables>(out: &mut String, variables: &V, name: &str) -> Result<(), AllocError>
    ensures { OnOk result (string_bytes out.new
        ≡ string_bytes out.old ++ meaning_text (V.look variables.now name.now)) }
{
    if let Some(text) = variables.text(name) {
        return push_shortened(out, text.as_bytes());
    }
    let members = variables.list(name).len();
    if members == 0 {
        return out.push_str("undefined");
    }
    write!(out, "list of {members}")
}

fn push_name<V: Variables>(out: &mut String, variables: &V, name: &str) -> Result<(), AllocError>
    ensures { OnOk result (string_bytes out.new ≡ string_bytes out.old ++ name_line (V.look variables.now) name.now) }
{
    out.push_str("    ")?;
    out.push_str(name)?;
    out.push_str(" ")?;
    push_meaning(out, variables, name)?;
    out.push_str("\n")
}

/// Appends a line with the value of each name.
pub(crate) fn push_names<V: Variables>(
    out: &mut String,
    variables: &V,
    names: &[&str],
) -> Result<(), AllocError>
    ensures { OnOk result (string_bytes out.new
        ≡ string_bytes out.old ++ flat_map (name_line (V.look variables.now)) (texts_of names.now)) }
{
    for name in names {
        push_name(out, variables, name)?;
    }
    Ok(())
}
