//! An iterator over the members of a list.

ghost use Rattle.std.specs.Prelude.{◌≡◌, ◌++◌, [], length, option_to_list, option_map, IfNone};
ghost use Rattle.std.specs.Iterator.{at_most};
ghost use Rattle.target_vars.specs.Members.{members_left, iter_members};

use crate::members::Members;

/// The members of a list, one after another.
///
/// In contracts the members that are left are `iter_members`.
#[derive(Clone, Drop)]
pub struct MembersIter<'a> {
    left: Members<'a>,
}

impl<'a> Iterator for MembersIter<'a> {
    type Item = &'a str;

    ghost remaining = { λ it. at_most (length (iter_members it)) };

    ghost next_gives = { λ old text new.
        (iter_members old ≡ option_to_list (option_map (λ t. t.now) text) ++ iter_members new)
        × IfNone text (iter_members new ≡ []) };

    fn next(&mut self) -> Option<&'a str> {
        let (first, others) = self.left.split_first()?;
        self.left = others;
        Some(first)
    }
}

impl<'a> IntoIterator for Members<'a> {
    type Item = &'a str;

    type IntoIter = MembersIter<'a>;

    ghost into_iter_gives = { λ members it. iter_members it ≡ members_left members };

    fn into_iter(self) -> MembersIter<'a> {
        MembersIter { left: self }
    }
}
