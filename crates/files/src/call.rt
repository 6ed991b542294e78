//! Kinds of calls on files.

/// The kind of a call on files, by the method of [`Files`](crate::Files); `Check` is `check_place`. Contracts use it to
/// name the call that failed.
#[derive(Clone, Copy)]
pub enum FileCall {
    Read,
    Check,
    Create,
    SetMode,
    Write,
    Keep,
    /// The path that contracts name is the first of the two.
    Rename,
    Remove,
}
