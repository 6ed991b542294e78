//! The bodies of loops, found in one walk from the first instruction on.

ghost use Rattle.std.specs.Prelude.{◌≡◌, ◌+◌, ◌-◌, ◌<◌, ◌≤◌, ◌&&◌, length};
ghost use Rattle.code_model.specs.Code.{reading_at};
ghost use Rattle.machine_model.specs.Form as form;
ghost use Rattle.machine_model.specs.Budget as budget;
ghost use Rattle.code_file.specs.Grammar.{IsCode};
ghost use Rattle.budget.specs.Private.Running.{running_in, running_at};

use code_file::{Code, instruction};
use code_model::Instruction;
use machine_model::Body;

/// The body that a walk over the instructions is in, and whether none of its instructions writes the register of its
/// element.
#[derive(Clone, Copy, Debug)]
pub(crate) struct Running {
    pub body: Body,
    pub kept: bool,
}

impl Running {
    /// Whether the instruction prints the loop's current element: it is a PUT or CUT of the element's register, and no
    /// instruction of the body writes that register.
    pub fn prints_element(&self, instruction: Option<Instruction>) -> bool
        ensures { result ≡ (budget.prints self.now.body.element instruction && self.now.kept) }
    {
        match instruction {
            Some(Instruction::Put(register, _) | Instruction::Cut(register, _, _)) => {
                self.body.element == register && self.kept
            }
            _ => false,
        }
    }
}

/// The instruction at a place, if its operation is known.
pub(crate) fn reading(code: &Code, place: usize) -> Option<Instruction>
    requires { place < length code.now.instrs }
    ensures { result ≡ reading_at code.now place }
{
    instruction(code.version(), code.instr(place))
}

/// The body that the next place is in, given the body that this place is in.
pub(crate) fn next_running(code: &Code, place: usize, running: Option<Running>) -> Option<Running>
    requires is_code { IsCode code.now }
    requires place { place < length code.now.instrs }
    requires running { running ≡ running_at code.now place }
    ensures { result ≡ running_at code.now (place + 1) }
{
    match running {
        Some(running) if place + 1 < running.body.end => Some(running),
        Some(_) => None,
        None => opened(code, place),
    }
}

/// The body that an EACH at the place begins.
fn opened(code: &Code, place: usize) -> Option<Running>
    requires { place < length code.now.instrs }
    ensures { result ≡ running_in code.now (form.opened code.now place (reading_at code.now place)) }
{
    let Some(Instruction::Each(element, _, end)) = reading(code, place) else {
        return None;
    };
    let end = usize::from(end);
    if end <= place || code.len() <= end || !ends_loop(code, end - 1) {
        return None;
    }
    let body = Body {
        start: place + 1,
        end,
        element,
    };
    let kept = keeps_element(code, body);
    Some(Running { body, kept })
}

/// Whether NEXT is at the place.
fn ends_loop(code: &Code, place: usize) -> bool
    requires { place < length code.now.instrs }
    ensures { result ≡ form.is_next (reading_at code.now place) }
{
    matches!(reading(code, place), Some(Instruction::Next))
}

/// Whether no instruction of the body writes the register of its element.
fn keeps_element(code: &Code, body: Body) -> bool
    requires order { body.start ≤ body.end }
    requires end { body.end ≤ length code.now.instrs }
    ensures { result ≡ budget.keeps_element code.now body }
{
    for place in body.start..body.end {
        if writes(body.element, reading(code, place)) {
            return false;
        }
    }
    true
}

/// Whether the instruction writes the register.
fn writes(register: u8, instruction: Option<Instruction>) -> bool
    ensures { result ≡ budget.writes register instruction }
{
    match instruction {
        Some(
            Instruction::Text(written, _)
            | Instruction::List(written, _)
            | Instruction::Const(written, _)
            | Instruction::Number(written, _, _)
            | Instruction::Count(written, _),
        ) => register == written,
        _ => false,
    }
}
