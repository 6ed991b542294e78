//! An environment as a run sees it.

ghost use Rattle.std.specs.Prelude.{◌≡◌, ℕ, ◌-◌, ◌≤◌, ◌<◌, MatchOption, None, Some, length, slice_get};
ghost use Rattle.text_model.specs.Texts.{Text};
ghost use Rattle.environment_model.specs.Environment.{text_of, byte_count, member_count};
ghost use Rattle.target_vars.specs.EnvValue.{EnvValue, IsWithin, IsTextAt, AreMembersAt, IsInOrder, piece_at};

use crate::env::{Env, MAX_BYTES, MAX_MEMBERS};

/// An environment as a run sees it. No call allocates.
///
/// The texts and members are pieces of one buffer, which an implementer may keep in two parts that meet at the seam; no
/// piece crosses it. A look-up gets a number along with the name, so that an implementer may look all names up in
/// advance.
pub trait Scope {
    /// The entries, and where their texts and members are.
    ghost environment: { Self → EnvValue };

    /// Whether the name may be looked up by the number.
    ghost is_number: { Self → ℕ → Text → Type 0 };

    /// Where the text of the name is: its offset and its length, in bytes. `None` for a list.
    fn text_at(&self, number: usize, name: &str) -> Option<(u32, u32)>
        requires { is_number self.now number name.now }
        ensures { MatchOption result (text_of (environment self.now).entries name.now ≡ None)
            (λ at. IsTextAt (environment self.now) name.now (at.0, at.1)) };

    /// Which spans are those of the name's list: the first, and how many.
    fn members_at(&self, number: usize, name: &str) -> (u32, u32)
        requires { is_number self.now number name.now }
        ensures { AreMembersAt (environment self.now) name.now result.0 result.1 };

    /// Where a member is: its offset and its length, in bytes.
    fn span(&self, i: usize) -> (u32, u32)
        requires { i < length (environment self.now).spans }
        ensures value { slice_get (environment self.now).spans i ≡ Some (result.0, result.1) }
        ensures within { IsWithin (environment self.now) (result.0, result.1) };

    /// The bytes from `start` to before `end`, which are on one side of the seam.
    fn piece(&self, start: usize, end: usize) -> &[u8]
        requires forward { start ≤ end }
        requires within { IsWithin (environment self.now) (start, end - start) }
        ensures { result.now ≡ piece_at (environment self.now).buffer (start, end - start) };

    /// The length of the buffer, in bytes.
    fn size(&self) -> usize
        ensures value { result ≡ length (environment self.now).buffer }
        ensures in_order { IsInOrder (environment self.now) };

    /// E, the number of bytes of all texts and members together, without names; and M, the number of members of all
    /// lists together.
    fn sums(&self) -> (usize, usize)
        ensures bytes { result.0 ≡ byte_count (environment self.now).entries }
        ensures few_bytes { result.0 ≤ MAX_BYTES }
        ensures members { result.1 ≡ member_count (environment self.now).entries }
        ensures few_members { result.1 ≤ MAX_MEMBERS };

    /// Bounds on E and M, which an implementer may know at less cost.
    fn most(&self) -> (usize, usize)
        ensures bytes { byte_count (environment self.now).entries ≤ result.0 }
        ensures few_bytes { result.0 ≤ MAX_BYTES }
        ensures members { member_count (environment self.now).entries ≤ result.1 }
        ensures few_members { result.1 ≤ MAX_MEMBERS };
}

/// The buffer is in one part, and any name may be looked up by any number.
impl Scope for Env {
    ghost environment = { λ env. env };

    ghost is_number = { λ _ _ _. Unit {0} };

    fn text_at(&self, _number: usize, name: &str) -> Option<(u32, u32)> {
        self.text_at(name)
    }

    fn members_at(&self, _number: usize, name: &str) -> (u32, u32) {
        self.members_at(name)
    }

    fn span(&self, i: usize) -> (u32, u32) {
        let _known = self.members();
        self.span(i)
    }

    fn piece(&self, start: usize, end: usize) -> &[u8] {
        &self.buffer()[start..end]
    }

    fn size(&self) -> usize {
        self.buffer().len()
    }

    fn sums(&self) -> (usize, usize) {
        (self.bytes(), self.members())
    }

    fn most(&self) -> (usize, usize) {
        self.sums()
    }
}
