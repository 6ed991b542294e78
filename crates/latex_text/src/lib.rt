//! Titles and names without the commands of LaTeX and BibTeX.
//!
//! ```rust
//! let name = without_latex(rt.alloc(), b"\\emph{Erd{\\H{o}}s}")?;
//! assert!(rt; name.as_slice() == "Erdős".as_bytes());
//! ```
//!
//! - An accent and its letter are one character, if Unicode has it: `\"o`, `\" o`, `\"{o}`, `\c c` and `\c{c}`. The
//!   letter may be `\i` or `\j`. So `\"{q}` stays.
//! - A letter with a name is that letter (`\ss`, `\o`, `\aa`), and the space after the name goes.
//! - A command for a font goes (`\emph{`, `\textit{`, `\it`), and so do the braces of a group. A group in which a
//!   command is left stays (`{\omega}`), and so does one after a command that is not read (`\foo{bar}`).
//! - `\&`, `\%`, `\#`, `\_` and `\$` are these characters. `\$` stays before a command or a group that stays.
//! - `\'` is an apostrophe after `O` or `D` at the beginning of a word (`O\'Neill`), and before a capital letter that
//!   has no acute accent.
//! - A formula, `$..$`, stays. A `$` without another one begins a formula too.
//! - A text is read from its last byte to its first, so what a command has in its braces is read before it.
//! - A text of which nothing would be left stays, and so does one of more than 2,000 bytes.
#![tactic(auto)]

mod bases;
mod commands;
mod groups;
pub mod laws;
mod letters;
mod places;
mod texts;

pub use texts::without_latex;
