//! The members of a list.

ghost use Rattle.std.specs.Prelude.{◌≡◌, ◌≤◌, length, slice_get, IfSome};
ghost use Rattle.std.specs.Option.{option_copied};
ghost use Rattle.target_vars.specs.Layout.{IsPieces};
ghost use Rattle.target_vars.specs.declared.env.TheConstants.{MAX_BYTES, MAX_MEMBERS};

use crate::place::Span;

/// The members of a list of an [`Env`](crate::Env), in the order in which they were added. Like a slice it borrows
/// them: it can be copied and shortened without touching a text, and no member needs a look-up by name.
///
/// In contracts the texts are `members_left`.
#[derive(Clone, Copy)]
pub struct Members<'a> {
    buffer: &'a str,
    spans: &'a [Span],
    ghost laid: { IsPieces buffer.now spans.now },
}

impl<'a> Members<'a> {
    ghost use Rattle.std.specs.Prelude.{[], ◌∷◌, map, MatchOption, IsTrue, ◌↔◌};
    ghost use Rattle.target_vars.specs.Layout.{span_bytes, IsPieces};
    ghost use Rattle.target_vars.specs.Members.{members_left};

    pub(crate) fn new(buffer: &'a str, spans: &'a [Span]) -> Members<'a>
        requires { IsPieces buffer.now spans.now }
        ensures { members_left result ≡ map (span_bytes buffer.now) spans.now }
    {
        Members { buffer, spans }
    }

    /// No members.
    pub fn none() -> Members<'a>
        ensures { members_left result ≡ [] }
    {
        Members {
            buffer: "",
            spans: &[],
        }
    }

    /// How many members there are.
    pub fn len(&self) -> usize
        ensures value { result ≡ length (members_left self.now) }
        ensures small { result ≤ MAX_MEMBERS }
    {
        self.spans.len()
    }

    /// Whether there is no member.
    pub fn is_empty(&self) -> bool
        ensures { IsTrue result ↔ (members_left self.now ≡ []) }
    {
        self.spans.is_empty()
    }

    /// Member `i`, counted from 0; `None` past the last one.
    pub fn get(&self, i: usize) -> Option<&'a str>
        ensures value { option_copied result ≡ slice_get (members_left self.now) i }
        ensures small { IfSome result (λ text. length text.now ≤ MAX_BYTES) }
    {
        let span = self.spans.get(i)?;
        Some(span.part.of(self.buffer))
    }

    /// The first member and those after it; `None` if there is no member.
    pub fn split_first(&self) -> Option<(&'a str, Members<'a>)>
        ensures value { MatchOption result (members_left self.now ≡ [])
            (λ split. members_left self.now ≡ split.0.now ∷ members_left split.1) }
        ensures small { IfSome result (λ split. length split.0.now ≤ MAX_BYTES) }
    {
        let (span, after) = self.spans.split_first()?;
        let others = Members {
            buffer: self.buffer,
            spans: after,
        };
        Some((span.part.of(self.buffer), others))
    }
}
