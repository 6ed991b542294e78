//! URI Templates (RFC 6570): the expansion of a template. The public calls of `uri_grammar`, which reads templates, and
//! of `uri_text`, which encodes values, are exported here too.
//!
//! The differences from the RFC are listed at [`Template`].
//!
//! If `x` is bound to `a` and `rft.au` is undefined:
//!
//! ```rust
//! let template = Template::parse(rt.alloc(), "{x}{?x,y,rft.au*}")?;
//! let text = expand(rt.alloc(), &template, &env)?;
//! assert_eq!(rt; text.as_str(), "a?x=a");
//! ```
#![tactic(auto)]

mod expansion;
pub mod laws;
mod pieces;
mod style;
mod variables;

pub use crate::expansion::{expand, expand_in};
pub use crate::style::Style;
pub use crate::variables::Variables;
pub use target_vars::{Env, Members};
pub use text_model::Writing;
pub use uri_grammar::{Op, Part, Spec, Specs, Template, TemplateError, TemplateErrorKind, Text};
pub use uri_text::{cut, encode, encode_u, encode_ur};
