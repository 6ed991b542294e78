//! The bodies of loops, and what is wrong with an instruction's form.

/// The places of a loop's body: from `start` to before `end`, with NEXT at `end - 1`. `element` is the
/// register that holds the member of the turn.
#[derive(Clone, Copy, Debug, PartialEq, Eq)]
pub struct Body {
    /// The first place.
    pub start: usize,
    /// The place after the last one.
    pub end: usize,
    /// The register of the element.
    pub element: u8,
}

/// Why the instruction at a place is not of good form, in the order in which it is checked.
#[derive(Clone, Copy, PartialEq, Eq)]
pub enum FormFault {
    /// No operation of the code's version has this number.
    UnknownOp,
    /// A field that the operation does not use is not 0, a mode is above 1, or a count is not 1 to 9999.
    BadField,
    /// The code's version has no such register.
    BadRegister,
    /// The table has no such entry.
    BadIndex,
    /// The entry of the table is of the other kind.
    WrongTableKind,
    /// A jump leads to its own place or to one before it.
    JumpNotForward,
    /// A jump leads past the last place.
    JumpOut,
    /// A jump leads into a body, or out of one.
    CrossesLoop,
    /// A loop begins in the body of another.
    NestedLoop,
    /// There is no NEXT directly before the place where the loop ends.
    BadLoop,
    /// A NEXT is not the last place of a body.
    StrayNext,
    /// A SEP is in no body.
    StraySep,
    /// The last instruction does not end the run.
    FallsOff,
}
