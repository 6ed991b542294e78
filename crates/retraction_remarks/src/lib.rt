//! Titles without the remarks of sources that an article was retracted.
//!
//! ```rust
//! let title = without_remarks(b"RETRACTED: Silt (Retracted article. See vol. 18, pg. 344, 2015)");
//! assert!(rt; title == b"Silt".as_slice());
//! ```
//!
//! A remark is before the title (`RETRACTED: Silt`, `[Retracted] Silt`, `Retracted article - Silt`) or after it
//! (`Silt (Retracted in 2015)`, `Silt - RETRACTED`), in capital or small letters. The title of a notice of retraction
//! begins otherwise (`Retraction of: Silt`) and stays: the notice is not what was retracted.
//!
//! - Before a title a remark is in brackets, or has a colon, or a dash and a space, after it. After a title it is in
//!   brackets, or in capitals after punctuation.
//! - A remark that is all of a title stays, so no title becomes blank.
//! - PubMed has a translated title in brackets: `]` at its end goes with `[RETRACTED: ` at its beginning, and so does a
//!   full stop after it.
//! - Words, spaces and punctuation are those of ASCII, and the dashes U+2013 and U+2014. A remark after a title has at
//!   most 200 bytes, and a note in it 150.
#![tactic(auto)]

mod ends;
pub mod laws;
mod parts;
mod remarks;

pub use remarks::without_remarks;
