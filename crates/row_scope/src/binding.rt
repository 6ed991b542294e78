//! What a name of a code is bound to.

/// What a name of a code is bound to.
#[derive(Clone, Copy, Default)]
pub enum Binding {
    /// Neither a text nor a list.
    #[default]
    Nothing,
    /// A text: where it begins, and its length in bytes.
    Text(u32, u32),
    /// A list: the first of its spans, and how many there are.
    List(u32, u32),
}
