//! Where an article is in its journal: the numbers of its volume and its issue, and its pages, in texts of any source.
//!
//! ```rust
//! let found = enumeration_in(rt.alloc(), b"Vol. 53, No. 2 (Suppl 1)")?;
//! let issue = found.and_then(|numbers| numbers.issue);
//! assert!(rt; issue.is_some_and(|issue| issue == b"2".as_slice()));
//!
//! let pages = pages_in(rt.alloc(), b"pp. 2344-55")?;
//! assert!(rt; pages.is_some_and(|pages| pages.first == b"2344".as_slice()));
//! ```
//!
//! A text has numbers of a volume and an issue if it has nothing else but words that say which number is next, and
//! spaces, punctuation, quotes and brackets. It has pages if it has one anywhere. What is read, and what is not:
//!
//! - The words are those of English, German, French, Spanish, Portuguese and Italian, in ASCII; for pages only those of
//!   English and German.
//! - The number of a volume or an issue has letters, digits, `-` and `/`, and at least one digit. Roman numerals are
//!   read for supplements and pages.
//! - A year in brackets after the number of a volume, as in `53 (2003)`, is no issue.
//! - A part of a volume, as in `12 Pt 3`, counts as an issue.
//! - Without a word or a bracket between them, as in `12, 3`, two numbers are not read.
//! - A word and a number in one word, as `Suppl1`, are two words; with another sign between them (`suppl_1`) they are
//!   one, and not read.
//! - A page has at most four letters before its digits. Of several ranges of pages, the first one counts. A range has a
//!   hyphen, or `to` or `bis`.
#![tactic(auto)]

mod enumerations;
mod labels;
mod last_pages;
pub mod laws;
mod page_forms;
mod pages;
mod runs;
mod words;

pub use enumerations::{Enumeration, enumeration_in};
pub use pages::{LastPage, Pages, pages_in};
