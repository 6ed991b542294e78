//! The piece of a variable (RFC 6570, section 3.2.1).

ghost use Rattle.std.specs.Prelude.{◌≡◌, ◌≤◌, ◌<◌, ◌==◌, ◌++◌, [], length, map, slice_index_or, OnOk, string_bytes};
ghost use Rattle.text_model.specs.Writing.{written};
ghost use Rattle.target_vars.specs.Members.{members_left};
ghost use Rattle.uri_template.specs.Expansion.{item, prefix, joined_by, list_piece};
ghost use Rattle.uri_template.specs.Private.Pieces.{list_head, member_text, member_sep, lead};

use crate::style::Style;
use std::alloc::AllocError;
use target_vars::{MAX_BYTES, Members};
use text_model::Writing;
use uri_grammar::Spec;
use uri_text::{cut, encode};

#[tactic(auto, using(text_model::proofs::Written::length_laws))]
fn push_written(out: &mut String, text: &[u8], writing: Writing) -> Result<(), AllocError>
    requires { length text.now ≤ MAX_BYTES }
    ensures { OnOk result (string_bytes out.new ≡ string_bytes out.old ++ written writing text.now) }
{
    out.reserve(3 * text.len())?;
    encode(out, text, writing);
    Ok(())
}

/// A value, with its name if the operator writes names.
fn push_item(out: &mut String, style: &Style, name: &str, value: &[u8]) -> Result<(), AllocError>
    requires { length value.now ≤ MAX_BYTES }
    ensures { OnOk result (string_bytes out.new ≡ string_bytes out.old ++ item style.now name.now value.now) }
{
    if !style.named {
        return push_written(out, value, style.writing);
    }
    out.push_str(name)?;
    if value.is_empty() {
        return out.push_str(style.ifemp);
    }
    out.push_str("=")?;
    push_written(out, value, style.writing)
}

/// The first n items of a value; 0 is no prefix.
fn prefix(text: &str, n: u16, writing: Writing) -> &[u8]
    ensures value { result.now ≡ prefix writing n text.now }
    ensures within { length result.now ≤ length text.now }
{
    if n == 0 {
        return text.as_bytes();
    }
    match writing {
        Writing::U => cut(text.as_bytes(), n as usize, false),
        Writing::UR => cut(text.as_bytes(), n as usize, true),
    }
}

/// Appends the piece of a variable that denotes a text, after `lead`.
pub(crate) fn push_text(
    out: &mut String,
    lead: &str,
    style: &Style,
    spec: &Spec,
    text: &str,
) -> Result<(), AllocError>
    requires { length text.now ≤ MAX_BYTES }
    ensures { OnOk result (string_bytes out.new
        ≡ string_bytes out.old
        ++ (lead.now ++ item style.now spec.now.name (prefix style.now.writing spec.now.cut text.now))) }
{
    out.push_str(lead)?;
    push_item(
        out,
        style,
        spec.name.as_str(),
        prefix(text, spec.cut, style.writing),
    )
}

/// A member, as an item of its own if the list is exploded.
fn push_member(out: &mut String, style: &Style, spec: &Spec, member: &str) -> Result<(), AllocError>
    requires { length member.now ≤ MAX_BYTES }
    ensures { OnOk result
        (string_bytes out.new ≡ string_bytes out.old ++ member_text style.now spec.now.name spec.now.explode
        member.now) }
{
    if spec.explode {
        push_item(out, style, spec.name.as_str(), member.as_bytes())
    } else {
        push_written(out, member.as_bytes(), style.writing)
    }
}

/// What is written between two members.
fn member_sep(style: &Style, explode: bool) -> &'static str
    ensures { result.now ≡ member_sep style.now explode }
{
    if explode { style.sep } else { "," }
}

/// Member `i`, with the separator before it unless it is the first.
fn push_nth(
    out: &mut String,
    style: &Style,
    spec: &Spec,
    members: &Members,
    i: usize,
) -> Result<(), AllocError>
    requires { i < length (members_left members.now) }
    ensures { OnOk result (string_bytes out.new ≡ string_bytes out.old
        ++ (lead [] (member_sep style.now spec.now.explode) (i == 0)
        ++ member_text style.now spec.now.name spec.now.explode (slice_index_or (members_left members.now) i []))) }
{
    if i > 0 {
        out.push_str(member_sep(style, spec.explode))?;
    }
    push_member(out, style, spec, members.get(i).unwrap())
}

fn push_members(
    out: &mut String,
    style: &Style,
    spec: &Spec,
    members: &Members,
) -> Result<(), AllocError>
    ensures { OnOk result (string_bytes out.new ≡ string_bytes out.old
        ++ joined_by (member_sep style.now spec.now.explode)
        (map (member_text style.now spec.now.name spec.now.explode) (members_left members.now))) }
{
    for i in 0..members.len() {
        push_nth(out, style, spec, members, i)?;
    }
    Ok(())
}

/// The name before the members of a list that is not exploded.
fn push_head(out: &mut String, style: &Style, spec: &Spec) -> Result<(), AllocError>
    ensures { OnOk result
        (string_bytes out.new ≡ string_bytes out.old ++ list_head style.now spec.now.name spec.now.explode) }
{
    if spec.explode || !style.named {
        return Ok(());
    }
    out.push_str(spec.name.as_str())?;
    out.push_str("=")
}

/// Appends the piece of a variable that denotes a list, after `lead`.
pub(crate) fn push_list(
    out: &mut String,
    lead: &str,
    style: &Style,
    spec: &Spec,
    members: &Members,
) -> Result<(), AllocError>
    ensures { OnOk result (string_bytes out.new ≡ string_bytes out.old
        ++ (lead.now ++ list_piece style.now spec.now.name spec.now.explode (members_left members.now))) }
{
    out.push_str(lead)?;
    push_head(out, style, spec)?;
    push_members(out, style, spec, members)
}
