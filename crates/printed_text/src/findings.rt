//! What a command finds in the files that it examines.

/// What a command finds in the files that it examines, as it is printed.
#[derive(Drop)]
pub struct Findings {
    /// Lines, each with a line feed after it.
    pub text: String,
    /// Whether one of the lines is a warning.
    pub warned: bool,
}
