//! The code files `OLK1` and `OLK2`: read, written and listed as text. A code has exactly one file.
//!
//! ```rust
//! let cut = Instr { op: 15, a: 1, b: 2, c: 3, d: 4 };
//! assert!(rt; matches!(instruction(1, cut), Some(Cut(1, 2, 3))));
//! assert!(rt; spelling(Cut(1, 2, 3)) == Instr { op: 15, a: 1, b: 2, c: 3, d: 0 });
//! ```
#![tactic(auto)]

mod build;
mod code;
mod copy;
mod decode;
mod entry;
mod error;
mod fields;
mod header;
pub mod laws;
mod limits;
mod listing;
mod parts;
mod tables;
mod uri_text;
mod write;

pub use code::Code;
pub use code_model::{Instr, Instruction};
pub use decode::{instruction, spelling};
pub use entry::{Literal, Name};
pub use error::{CodeError, CodeErrorKind};
pub use limits::{MAX_BYTES, MAX_INSTRS, MAX_LITERALS, MAX_NAME_BYTES, MAX_NAMES};
