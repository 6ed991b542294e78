//! The lines of templates.

ghost use Rattle.std.specs.Prelude.{◌≡◌, ◌++◌, [], true, OnOk, codes};
ghost use Rattle.compiler_model.specs.declared.lines.Action.TheVariants as actions;
ghost use Rattle.compiler_model.specs.declared.lines.Test.TheVariants as tests;
ghost use Rattle.compiler_model.specs.Blocks.{Does, Then, Either, lines};
ghost use Rattle.compiler_model.specs.Shapes.{lead_block, writing_action, named_block, item_block, head_block};
ghost use Rattle.compiler_model.specs.Shapes.{loaded_block, spec_block, specs_block, part_block};
ghost use Rattle.compiler_model.specs.Shapes.{parts_block};
ghost use Rattle.uri_template.specs.Expansion.{style_of};

use crate::guards::{missing, push_loading};
use crate::lines::{push_each, push_emit, push_load_const, push_separator, push_unless};
use compiler_model::{Action, Line, Target, Test};
use rule_parser::Rules;
use std::alloc::{AllocError, Global};
use text_model::Writing;
use uri_grammar::{Op, Part, Spec, Text};
use uri_template::Style;

/// Writes the separator before a piece, except before the first.
fn push_later_lead(alloc: Global, out: &mut Vec<Line>, sep: &str) -> Result<(), AllocError>
    ensures { OnOk result (out.new.items ≡ out.old.items ++ lines (lead_block [] sep.now)) }
{
    let mut later = Vec::new(alloc);
    push_emit(alloc, &mut later, sep)?;
    push_unless(out, Test::IsEmpty(4), later)?;
    push_load_const(alloc, out, 4, "1")
}

fn push_first_lead(
    alloc: Global,
    out: &mut Vec<Line>,
    first: &str,
    sep: &str,
) -> Result<(), AllocError>
    ensures { OnOk result (out.new.items ≡ out.old.items
        ++ lines (Then (Either (tests.IsEmpty 4) (Does (actions.Emits sep.now)) (Does (actions.Emits first.now)))
        (Does (actions.LoadConst 4 (codes "1"))))) }
{
    out.push(Line::Tests(Test::IsEmpty(4), Target::Ahead(3)))?;
    push_emit(alloc, out, sep)?;
    out.push(Line::Jumps(Target::Ahead(2)))?;
    push_emit(alloc, out, first)?;
    push_load_const(alloc, out, 4, "1")
}

#[tactic(auto, using(crate::proofs::ShapeChoice::lead_later, crate::proofs::ShapeChoice::lead_first))]
fn push_lead(alloc: Global, out: &mut Vec<Line>, first: &str, sep: &str) -> Result<(), AllocError>
    ensures { OnOk result (out.new.items ≡ out.old.items ++ lines (lead_block first.now sep.now)) }
{
    if first.is_empty() {
        push_later_lead(alloc, out, sep)
    } else {
        push_first_lead(alloc, out, first, sep)
    }
}

/// The action that writes the text of a register, or its first `cut` items; 0 means the whole text.
#[tactic(auto, using(crate::proofs::ShapeChoice::writes_prefix))]
fn writing(register: u8, writing: Writing, cut: u16) -> Action
    ensures { result ≡ writing_action register writing cut }
{
    if cut == 0 {
        Action::Puts(register, writing)
    } else {
        Action::Cuts(register, cut, writing)
    }
}

fn push_value(out: &mut Vec<Line>, register: u8, by: Writing, cut: u16) -> Result<(), AllocError>
    ensures { OnOk result (out.new.items ≡ out.old.items ++ lines (Does (writing_action register by cut))) }
{
    out.push(Line::Acts(writing(register, by, cut)))?;
    Ok(())
}

/// A name and the equals sign.
fn push_name_sign(alloc: Global, out: &mut Vec<Line>, name: &str) -> Result<(), AllocError>
    ensures { OnOk result (out.new.items ≡ out.old.items ++ lines (Does (actions.Emits (name.now ++ codes "=")))) }
{
    let mut text = String::from_str(alloc, name)?;
    text.push_str("=")?;
    out.push(Line::Acts(Action::Emits(Text::new(text))))?;
    Ok(())
}

/// A name, and, if the value is not empty, the equals sign and the value.
fn push_bare(
    alloc: Global,
    out: &mut Vec<Line>,
    register: u8,
    name: &str,
    by: Writing,
    cut: u16,
) -> Result<(), AllocError>
    ensures { OnOk result
        (out.new.items ≡ out.old.items ++ lines (named_block [] register name.now (writing_action register by cut))) }
{
    let mut body = Vec::new(alloc);
    push_emit(alloc, &mut body, "=")?;
    push_value(&mut body, register, by, cut)?;
    push_emit(alloc, out, name)?;
    push_unless(out, Test::IsEmpty(register), body)
}

fn push_always(
    alloc: Global,
    out: &mut Vec<Line>,
    register: u8,
    name: &str,
    by: Writing,
    cut: u16,
) -> Result<(), AllocError>
    ensures { OnOk result (out.new.items ≡ out.old.items
        ++ lines (Then (Does (actions.Emits (name.now ++ codes "="))) (Does (writing_action register by cut)))) }
{
    push_name_sign(alloc, out, name)?;
    push_value(out, register, by, cut)
}

#[tactic(auto, using(crate::proofs::ShapeChoice::named_bare, crate::proofs::ShapeChoice::named_always))]
fn push_named(
    alloc: Global,
    out: &mut Vec<Line>,
    ifemp: &str,
    register: u8,
    name: &str,
    by: Writing,
    cut: u16,
) -> Result<(), AllocError>
    ensures { OnOk result
        (out.new.items ≡ out.old.items
        ++ lines (named_block ifemp.now register name.now (writing_action register by cut))) }
{
    if ifemp.is_empty() {
        push_bare(alloc, out, register, name, by, cut)
    } else {
        push_always(alloc, out, register, name, by, cut)
    }
}

/// The text of a register, with its name if the values have names.
fn push_item(
    alloc: Global,
    out: &mut Vec<Line>,
    style: &Style,
    register: u8,
    name: &str,
    cut: u16,
) -> Result<(), AllocError>
    ensures { OnOk result (out.new.items ≡ out.old.items
        ++ lines (item_block style.now register name.now (writing_action register style.now.writing cut))) }
{
    if style.named {
        push_named(alloc, out, style.ifemp, register, name, style.writing, cut)
    } else {
        push_value(out, register, style.writing, cut)
    }
}

fn push_head(alloc: Global, out: &mut Vec<Line>, named: bool, name: &str) -> Result<(), AllocError>
    ensures { OnOk result (out.new.items ≡ out.old.items ++ lines (head_block named name.now)) }
{
    if named {
        push_name_sign(alloc, out, name)
    } else {
        Ok(())
    }
}

/// The members of the list in r0, each as an item of its own or joined by commas.
fn push_members(
    alloc: Global,
    out: &mut Vec<Line>,
    style: &Style,
    spec: &Spec,
) -> Result<(), AllocError>
    ensures { OnOk result (out.new.items ≡ out.old.items ++ lines (loaded_block true style.now spec.now)) }
{
    let mut body = Vec::new(alloc);
    if spec.explode {
        push_separator(alloc, &mut body, style.sep)?;
        push_item(alloc, &mut body, style, 5, spec.name.as_str(), 0)?;
    } else {
        push_separator(alloc, &mut body, ",")?;
        push_value(&mut body, 5, style.writing, 0)?;
        push_head(alloc, out, style.named, spec.name.as_str())?;
    }
    push_each(out, 5, 0, body)
}

fn push_loaded(
    alloc: Global,
    out: &mut Vec<Line>,
    list: bool,
    style: &Style,
    spec: &Spec,
) -> Result<(), AllocError>
    ensures { OnOk result (out.new.items ≡ out.old.items ++ lines (loaded_block list style.now spec.now)) }
{
    if list {
        push_members(alloc, out, style, spec)
    } else {
        push_item(alloc, out, style, 0, spec.name.as_str(), spec.cut)
    }
}

fn push_spec(
    alloc: Global,
    out: &mut Vec<Line>,
    rules: &Rules,
    style: &Style,
    spec: &Spec,
) -> Result<(), AllocError>
    ensures { OnOk result (out.new.items ≡ out.old.items ++ lines (spec_block rules.now.lists style.now spec.now)) }
{
    let name = spec.name.as_str();
    let list = rules.is_list(name);
    let mut body = Vec::new(alloc);
    push_lead(alloc, &mut body, style.first, style.sep)?;
    push_loaded(alloc, &mut body, list, style, spec)?;
    push_loading(alloc, out, list, name)?;
    push_unless(out, missing(list), body)
}

fn push_specs(
    alloc: Global,
    out: &mut Vec<Line>,
    rules: &Rules,
    style: &Style,
    specs: &[Spec],
) -> Result<(), AllocError>
    ensures { OnOk result (out.new.items ≡ out.old.items ++ lines (specs_block rules.now.lists style.now specs.now)) }
{
    for spec in specs {
        push_spec(alloc, out, rules, style, spec)?;
    }
    Ok(())
}

fn push_expression(
    alloc: Global,
    out: &mut Vec<Line>,
    rules: &Rules,
    op: Op,
    specs: &[Spec],
) -> Result<(), AllocError>
    ensures { OnOk result (out.new.items ≡ out.old.items
        ++ lines (Then (Does (actions.LoadConst 4 [])) (specs_block rules.now.lists (style_of op) specs.now))) }
{
    push_load_const(alloc, out, 4, "")?;
    push_specs(alloc, out, rules, &Style::of(op), specs)
}

fn push_part(
    alloc: Global,
    out: &mut Vec<Line>,
    rules: &Rules,
    part: &Part,
) -> Result<(), AllocError>
    ensures { OnOk result (out.new.items ≡ out.old.items ++ lines (part_block rules.now.lists part.now)) }
{
    match part {
        Part::Literal(text) => push_emit(alloc, out, text.as_str()),
        Part::Expression { op, specs } => {
            push_expression(alloc, out, rules, *op, specs.as_slice())
        }
    }
}

/// The parts of a template, one after another.
pub(crate) fn push_parts(
    alloc: Global,
    out: &mut Vec<Line>,
    rules: &Rules,
    parts: &[Part],
) -> Result<(), AllocError>
    ensures { OnOk result (out.new.items ≡ out.old.items ++ lines (parts_block rules.now.lists parts.now)) }
{
    for part in parts {
        push_part(alloc, out, rules, part)?;
    }
    Ok(())
}
