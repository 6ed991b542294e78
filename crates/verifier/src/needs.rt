//! What instructions need of their registers.

ghost use Rattle.std.specs.Prelude.{◌≡◌, [], ◌∷◌};
ghost use Rattle.machine_model.specs.Kinds as model;
ghost use Rattle.machine_model.specs.Mismatch.{first_unmet};
ghost use Rattle.verifier.specs.Private.Rows.{kinds_of, needs_of, one_or_none, need_of, AreInRow, IsNeedInRow};

use crate::row::{Row, is_below};
use code_model::Instruction;
use machine_model::Kind;

/// A register, and the kind that it must be at or below.
#[derive(Clone, Copy)]
pub(crate) struct Need {
    pub(crate) register: u16,
    pub(crate) kind: Kind,
}

fn needed(register: u16, kind: Kind) -> Option<Need>
    ensures { one_or_none need_of result ≡ model.need register kind ∷ [] }
{
    Some(Need { register, kind })
}

/// What an instruction needs, in the order of its registers.
fn needs(instruction: Instruction) -> (Option<Need>, Option<Need>)
    ensures { needs_of result ≡ model.needs instruction }
{
    match instruction {
        Instruction::Number(_, b, _) => (needed(b, Kind::Text), None),
        Instruction::Undef(a, _) => (needed(a.into(), Kind::OptText), None),
        Instruction::Empty(a, _) => (needed(a.into(), Kind::Text), None),
        Instruction::NoList(a, _) => (needed(a.into(), Kind::List), None),
        Instruction::Differ(a, b, _) => (needed(a.into(), Kind::Text), needed(b, Kind::Text)),
        Instruction::Less(a, b, _) => (needed(a.into(), Kind::Number), needed(b, Kind::Number)),
        Instruction::Put(a, _) => (needed(a.into(), Kind::Text), None),
        Instruction::Cut(a, _, _) => (needed(a.into(), Kind::Text), None),
        Instruction::Each(_, b, _) => (needed(b, Kind::List), None),
        Instruction::Count(_, b) => (needed(b, Kind::List), None),
        _ => (None, None),
    }
}

impl Row {
    /// The register of a need that is not met.
    fn unmet_need(&self, need: Option<Need>) -> Option<u16>
        requires { IsNeedInRow need }
        ensures { result ≡ first_unmet (kinds_of self.now) (one_or_none need_of need) }
    {
        let need = need?;
        if is_below(self.get(need.register), need.kind) {
            None
        } else {
            Some(need.register)
        }
    }

    /// The register of the instruction's first need that is not met.
    pub(crate) fn unmet(&self, instruction: Instruction) -> Option<u16>
        requires { AreInRow instruction }
        ensures { result ≡ first_unmet (kinds_of self.now) (model.needs instruction) }
    {
        let (first, second) = needs(instruction);
        match self.unmet_need(first) {
            None => self.unmet_need(second),
            Some(register) => Some(register),
        }
    }
}
