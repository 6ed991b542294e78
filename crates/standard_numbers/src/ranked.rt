//! Numbers in two lists: those with a right check digit, and the others.

ghost use Rattle.std.specs.Prelude.{◌≡◌, [], ◌∷◌, ◌++◌, OnOk, IfOk, if◌then◌else◌};

use std::alloc::{AllocError, Global};
use uri_text::Text;

/// Numbers in two lists: those with a right check digit, and the others.
#[derive(Drop)]
pub(crate) struct Ranked {
    right: Vec<Text>,
    others: Vec<Text>,
}

impl Ranked {
    pub(crate) fn new(alloc: Global) -> Ranked
        ensures right { result.right.items ≡ [] }
        ensures others { result.others.items ≡ [] }
    {
        Ranked {
            right: Vec::new(alloc),
            others: Vec::new(alloc),
        }
    }

    /// Appends a number to one of the lists.
    pub(crate) fn push(&mut self, number: Text, is_right: bool) -> Result<(), AllocError>
        ensures right { OnOk result
            (self.new.right.items ≡ (if is_right then self.old.right.items ++ number ∷ [] else self.old.right.items)) }
        ensures others { OnOk result
            (self.new.others.items
            ≡ (if is_right then self.old.others.items else self.old.others.items ++ number ∷ [])) }
    {
        if is_right {
            self.right.push(number)?;
        } else {
            self.others.push(number)?;
        }
        Ok(())
    }

    /// All numbers, those with a right check digit first.
    pub(crate) fn into_list(mut self) -> Result<Vec<Text>, AllocError>
        ensures { IfOk result (λ list. list.items ≡ self.right.items ++ self.others.items) }
    {
        self.right.append(&mut self.others)?;
        let Ranked { right, others: _ } = self;
        Ok(right)
    }
}
