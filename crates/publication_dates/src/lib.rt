//! Dates in texts of any source, as YYYY, YYYY-MM or YYYY-MM-DD (ISO 8601).
//!
//! ```rust
//! let date = date_in(rt.alloc(), b"25/12/2013")?;
//! assert!(rt; date.is_some_and(|date| date.as_str() == "2013-12-25"));
//! ```
//!
//! Differences from the standard, in what is read and not in what is written:
//!
//! - A year is one from 1000 to 2999. There are no weeks, ordinal dates, times and durations.
//! - Digits may have `-`, `/`, `.` or a space between them, or none. If it is not certain which number is the month,
//!   as in `1/2/2013`, only the year counts.
//! - The name of a month, in English, may be beside the year: three letters of it or more.
//! - A month that does not exist, and a day that its month does not have, count as missing.
//! - Of a range, the first date counts.
#![tactic(auto)]

mod calendar;
mod dates;
mod days;
pub mod laws;
mod months;
mod parts;

pub use dates::date_in;
pub use days::{Days, days_in};
