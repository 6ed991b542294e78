//! The places that can follow an instruction, and the kinds of the registers there.

ghost use Rattle.std.specs.Prelude.{◌≡◌, ◌<◌, [], ◌∷◌};
ghost use Rattle.machine_model.specs.Kinds as model;
ghost use Rattle.verifier.specs.Private.Rows.{kinds_of, edges_of, one_or_none, edge_of, AreInRow, IsElementInRow};

use crate::row::Row;
use code_model::Instruction;
use machine_model::{Body, Kind};

/// A place that can come next, and the kinds of the registers there.
#[derive(Clone, Copy)]
pub(crate) struct Edge {
    pub(crate) to: usize,
    pub(crate) row: Row,
}

fn carried(to: usize, row: Row) -> Option<Edge>
    ensures { one_or_none edge_of result ≡ model.edge to (kinds_of row) ∷ [] }
{
    Some(Edge { to, row })
}

/// The edges of an instruction at a place with these kinds, in this body. NEXT returns to the body's first place, where
/// the element is a text.
pub(crate) fn edges(
    place: usize,
    row: Row,
    body: Option<Body>,
    instruction: Instruction,
) -> (Option<Edge>, Option<Edge>)
    requires place { place < usize.MAX }
    requires registers { AreInRow instruction }
    requires element { IsElementInRow body }
    ensures { edges_of result ≡ model.edges place (kinds_of row) body instruction }
{
    let next = place + 1;
    match instruction {
        Instruction::Halt | Instruction::Fail => (None, None),
        Instruction::Jump(d) => (carried(d.into(), row), None),
        Instruction::Text(a, _) => (carried(next, row.with(a, Kind::OptText)), None),
        Instruction::List(a, _) => (carried(next, row.with(a, Kind::List)), None),
        Instruction::Const(a, _) => (carried(next, row.with(a, Kind::Text)), None),
        Instruction::Count(a, _) => (carried(next, row.with(a, Kind::Number)), None),
        Instruction::Number(a, _, d) => (
            carried(next, row.with(a, Kind::Number)),
            carried(d.into(), row),
        ),
        Instruction::Undef(a, d) => {
            let told = row.with(a, Kind::Text);
            (carried(next, told), carried(d.into(), row))
        }
        Instruction::Empty(_, d)
        | Instruction::NoList(_, d)
        | Instruction::Differ(_, _, d)
        | Instruction::Less(_, _, d) => (carried(next, row), carried(d.into(), row)),
        Instruction::Emit(_)
        | Instruction::Put(_, _)
        | Instruction::Cut(_, _, _)
        | Instruction::Sep(_) => (carried(next, row), None),
        Instruction::Each(a, _, d) => (
            carried(next, row.with(a, Kind::Text)),
            carried(d.into(), row.with(a, Kind::Any)),
        ),
        Instruction::Next => match body {
            None => (carried(next, row), None),
            Some(body) => (
                carried(body.start, row.with(body.element, Kind::Text)),
                carried(next, row.with(body.element, Kind::Any)),
            ),
        },
    }
}
