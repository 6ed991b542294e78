//! The name of a journal, and the volume, issue, pages and year after it, in references to articles.
//!
//! ```rust
//! let found = reference_in(rt.alloc(), "Annals of Tidal Studies, 12(3), 45-67 (2012)")?;
//! assert!(rt; found.is_some_and(|it| it.name.as_str() == "Annals of Tidal Studies"));
//! ```
//!
//! A reference has a volume, and an issue or pages, in one of the forms that lists of references and databases have,
//! such as `2012 Mar 5;12(3):45-67`, `12(3), 45-67`, `12 (2012) 45-67`, `Vol. 12, No. 3, 5 Mar. 2012, pp. 45-67`,
//! `12, 3, Article 45` and `12, 45 (2012)`. It counts anywhere in a text; the name is what is before it. What is read,
//! and what is not:
//!
//! - Only forms that nothing else has: not `12, 45-67` and `12:45`, which are chapters and hours too.
//! - A reference begins after no letter, digit, `.`, `:`, `/` or `-`. The first one in a text counts.
//! - Words are those of English, German, French, Spanish, Portuguese and Italian, in ASCII. The hyphen of ranges is
//!   that of ASCII: other dashes should be written so before.
//! - A year is one from 1500 to 2099, before the volume or after it. The day and the month, or the season, beside it
//!   are not kept, and no part of the name. A month before the volume, and one with a day, is in English.
//! - A day before a month is no page, and neither is a year; `e2003` is a page.
//! - A text has at most 500 bytes.
#![tactic(auto)]

mod dates;
mod forms;
mod groups;
pub mod laws;
mod matches;
mod parts;
mod pieces;
mod places;
mod references;
mod runs;
mod words;

pub use references::{Reference, reference_in};
