//! Numbers and identifiers as sources write them, in ASCII.
//!
//! ```rust
//! let number = number_text(rt.alloc(), "２９０１‐\n٠٠١٢")?;
//! assert!(rt; number.as_str() == "2901-0012");
//! let identifier = identifier_text(rt.alloc(), "“10.1000/\n182”\nPMID 123")?;
//! assert!(rt; identifier.as_str() == "10.1000/182");
//! ```
//!
//! In a number, which may be a page, a date or a volume too,
//!
//! - dashes, spaces, the digits of Arabic, Persian and Devanagari, and full-width characters become those of ASCII;
//! - quotation marks and marks of direction go;
//! - a run of spaces is one space, and there is none at the ends;
//! - lines are joined by a space, and without one after a hyphen, at which the number is divided.
//!
//! In an identifier, quotation marks and the spaces and hyphens of a layout go. The lines after the first one follow it
//! at once, up to one that begins another identifier.
//!
//! Neither gets longer, in bytes. A text of ASCII in which nothing changes is tested in one pass and copied.
#![tactic(auto)]

mod characters;
mod identifiers;
pub mod laws;
mod layout;
mod numbers;

pub use identifiers::identifier_text;
pub use numbers::number_text;
