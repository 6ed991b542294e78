//! The limits of a code and of its file.

/// The maximum size of a code file, in bytes.
pub const MAX_BYTES: usize = 65_536;

/// The maximum number of names in a code.
pub const MAX_NAMES: u16 = 256;

/// The maximum number of literals in a code.
pub const MAX_LITERALS: u16 = 1_024;

/// The maximum number of instructions in a code.
pub const MAX_INSTRS: u16 = 4_096;

/// The maximum length of a name of a code, in bytes.
pub const MAX_NAME_BYTES: usize = 255;
