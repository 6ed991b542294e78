//! Lines, one after another, with copies of the texts that they use.

ghost use Rattle.std.specs.Prelude.{◌≡◌, ◌+◌, ◌∷◌, [], ◌++◌, length, IfOk, OnOk};
ghost use Rattle.compiler_model.specs.declared.lines.Line.TheVariants.{Acts, Tests, Begins, Turns};
ghost use Rattle.compiler_model.specs.declared.lines.Action.TheVariants.{LoadText, LoadList, LoadConst, Emits};
ghost use Rattle.compiler_model.specs.declared.lines.Action.TheVariants.{Separates};
ghost use Rattle.compiler_model.specs.declared.lines.Target.TheVariants.{Ahead, Away};

use compiler_model::{Action, Line, Target, Test};
use std::alloc::{AllocError, Global};
use uri_grammar::Text;

/// A copy of the text.
pub(crate) fn copy(alloc: Global, text: &str) -> Result<Text, AllocError>
    ensures { IfOk result (λ copy. copy ≡ text.now) }
{
    Ok(Text::new(String::from_str(alloc, text)?))
}

pub(crate) fn push_load_text(
    alloc: Global,
    out: &mut Vec<Line>,
    register: u8,
    name: &str,
) -> Result<(), AllocError>
    ensures { OnOk result (out.new.items ≡ out.old.items ++ Acts (LoadText register name.now) ∷ []) }
{
    out.push(Line::Acts(Action::LoadText(register, copy(alloc, name)?)))?;
    Ok(())
}

pub(crate) fn push_load_list(
    alloc: Global,
    out: &mut Vec<Line>,
    register: u8,
    name: &str,
) -> Result<(), AllocError>
    ensures { OnOk result (out.new.items ≡ out.old.items ++ Acts (LoadList register name.now) ∷ []) }
{
    out.push(Line::Acts(Action::LoadList(register, copy(alloc, name)?)))?;
    Ok(())
}

pub(crate) fn push_load_const(
    alloc: Global,
    out: &mut Vec<Line>,
    register: u8,
    text: &str,
) -> Result<(), AllocError>
    ensures { OnOk result (out.new.items ≡ out.old.items ++ Acts (LoadConst register text.now) ∷ []) }
{
    out.push(Line::Acts(Action::LoadConst(register, copy(alloc, text)?)))?;
    Ok(())
}

pub(crate) fn push_emit(alloc: Global, out: &mut Vec<Line>, text: &str) -> Result<(), AllocError>
    ensures { OnOk result (out.new.items ≡ out.old.items ++ Acts (Emits text.now) ∷ []) }
{
    out.push(Line::Acts(Action::Emits(copy(alloc, text)?)))?;
    Ok(())
}

pub(crate) fn push_separator(
    alloc: Global,
    out: &mut Vec<Line>,
    text: &str,
) -> Result<(), AllocError>
    ensures { OnOk result (out.new.items ≡ out.old.items ++ Acts (Separates text.now) ∷ []) }
{
    out.push(Line::Acts(Action::Separates(copy(alloc, text)?)))?;
    Ok(())
}

/// A test that leaves the rule if it holds.
pub(crate) fn push_leave_if(out: &mut Vec<Line>, test: Test) -> Result<(), AllocError>
    ensures { OnOk result (out.new.items ≡ out.old.items ++ Tests test Away ∷ []) }
{
    out.push(Line::Tests(test, Target::Away))?;
    Ok(())
}

/// A test that jumps past the body if it holds, and the body.
pub(crate) fn push_unless(
    out: &mut Vec<Line>,
    test: Test,
    mut body: Vec<Line>,
) -> Result<(), AllocError>
    ensures { OnOk result (out.new.items ≡ out.old.items ++ Tests test (Ahead (length body.items + 1)) ∷ body.items) }
{
    out.push(Line::Tests(test, Target::Ahead(body.len() + 1)))?;
    out.append(&mut body)?;
    Ok(())
}

/// A loop over the list of the second register, with the member in the first, and its body.
pub(crate) fn push_each(
    out: &mut Vec<Line>,
    element: u8,
    list: u8,
    mut body: Vec<Line>,
) -> Result<(), AllocError>
    ensures { OnOk result (out.new.items ≡ out.old.items ++ Begins element list (length body.items + 2) ∷ body.items
        ++ Turns ∷ []) }
{
    out.push(Line::Begins(element, list, body.len() + 2))?;
    out.append(&mut body)?;
    out.push(Line::Turns)?;
    Ok(())
}
