//! What registers hold.

use target_vars::Members;

/// What a register holds. Texts and lists are borrowed from the environment or the code.
#[derive(Clone, Copy)]
pub(crate) enum Value<'a> {
    Nothing,
    Undefined,
    Text(&'a [u8]),
    List(Members<'a>),
    Number(u32),
}
