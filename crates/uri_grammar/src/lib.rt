//! The grammar of URI Templates (RFC 6570, section 2): a template's text, its tree, its first error,
//! and the laws of the grammar.
//!
//! The differences from the RFC are listed at [`Template`].
#![tactic(auto)]

pub use crate::error::{TemplateError, TemplateErrorKind};
pub use crate::names::{MAX_NAME_BYTES, is_name};
pub use crate::parts::{Op, Part, Spec, Specs};
pub use crate::template::{MAX_BYTES, Template};
pub use crate::variables::MAX_PREFIX;
pub use uri_text::Text;

mod characters;
mod error;
mod expressions;
pub mod laws;
mod literals;
mod names;
mod parts;
mod template;
mod variables;
