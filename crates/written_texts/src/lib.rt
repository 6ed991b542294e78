//! Titles, names, numbers and identifiers as sources write them, read as text.
//!
//! ```rust
//! let name = read(rt.alloc(), Role::Other, "Caf%C3%A9+Gr{\\\"u}n")?;
//! assert!(rt; name.as_str() == "Café Grün");
//! let title = read(rt.alloc(), Role::Title, "RETRACTED: <i>Silt</i> &amp; sand")?;
//! assert!(rt; title.as_str() == "Silt & sand");
//! let number = read(rt.alloc(), Role::Number, "2901\u{2010}0012")?;
//! assert!(rt; number.as_str() == "2901-0012");
//! ```
//!
//! A title or a name is read in turn
//!
//! 1. from a second encoding as a value of a query (URL Standard, section 5.1), if it has no space and each `%` in it
//!    begins an escape, or without `%` if `+` joins three words in it;
//! 2. from commands of LaTeX and BibTeX;
//! 3. from tags and character references of HTML, JATS and MathML;
//! 4. from remarks that the work was retracted, if it is a title.
//!
//! A number is read from a second encoding too, and then in ASCII, as [`written_numbers`] writes it. So is an
//! identifier, from a second encoding with escapes and without `+`, and then without what a layout has put into it.
//!
//! What was read counts only if it is read as itself, is not blank, and is no longer than the text, in bytes. Otherwise
//! the text stays as it is. So reading twice is reading once.
#![tactic(auto)]

mod encoded;
pub mod laws;
mod readings;

pub use readings::{Role, read};
