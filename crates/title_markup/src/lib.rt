//! Titles and names without the markup of sources.
//!
//! ```rust
//! let title = plain_title(rt.alloc(), b" Silt  &amp; <i>Zostera</i>")?;
//! assert!(rt; title.as_slice() == b"Silt & Zostera".as_slice());
//! ```
//!
//! Tags go, whatever their names are: those of HTML (`<i>`), of JATS (`<jats:p xml:lang="en">`) and of MathML. What is
//! between two tags stays. A character reference becomes its character (HTML Living Standard, section 13.1.4):
//! `&#233;`, `&#xe9;`, or `&eacute;` with a name of HTML 4.01 (section 24), `&apos;`, or `&AMP;` and the like.
//!
//! - A tag is `<` or `</`, a name, and `>` or `/>`; before `>` may be a space and at most 200 bytes. A name has at most
//!   20 bytes: letters, digits, `:` and `-`, the first one a letter. So `p < 0.05` stays.
//! - A reference ends with `;` and has at most 8 bytes between `&` and `;`. Another name stays, and so does the number
//!   of a surrogate or of NUL.
//! - Markup goes as soon as it is complete, and what it leaves may be markup again. So text that a source has escaped
//!   twice or more often is read to its end (`&amp;lt;i&amp;gt;` goes), and reading twice is reading once.
//! - A run of spaces and control characters of ASCII is one space, and there is none at the ends.
//! - A title of which nothing would be left stays, so no title becomes blank.
#![tactic(auto)]

mod endings;
pub mod laws;
mod names;
mod plain_titles;
mod references;
mod spaces;
mod tags;
mod titles;

pub use plain_titles::plain_title;
pub use spaces::with_single_spaces;
pub use titles::without_markup;
