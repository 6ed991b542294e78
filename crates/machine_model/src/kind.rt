//! What is known about a register's value.

/// What is known about a register's value before a step. `Text` is below `OptText`; `OptText`, `List` and `Number` are
/// below `Any`.
#[derive(Clone, Copy, PartialEq, Eq)]
pub enum Kind {
    /// Any value, or nothing yet.
    Any,
    /// A text, or Undefined.
    OptText,
    /// A text.
    Text,
    /// A list of texts.
    List,
    /// A number.
    Number,
}
