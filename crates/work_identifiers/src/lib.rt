//! Identifiers of works in texts of any source: DOIs (ISO 26324), the numbers of PubMed, of PubMed Central and of OCLC,
//! and the identifiers of arXiv.
//!
//! ```rust
//! let doi = identifier_in(rt.alloc(), Namespace::Doi, b"https://doi.org/10.1000/182.")?;
//! assert!(rt; doi.is_some_and(|doi| doi == b"10.1000/182".as_slice()));
//! ```
//!
//! A text has an identifier if it has nothing else but a word or two that say what it is, the address of its resolver,
//! and what sources write around it: spaces, quotes, brackets and punctuation. The address of a publisher's page may
//! have a DOI anywhere: `doi_in_address` finds it. A title may mention an identifier among its words: `mention_in`
//! finds the first one. Whether a text is an ISSN or an ISBN, `is_number_named` and `is_number_alone` tell.
//!
//! Differences from the standards and from what sources send:
//!
//! - A DOI has visible characters of ASCII alone, at most 500, and the code of its registrant has digits and full
//!   stops, 4 to 20 of them.
//! - A number of PubMed has at most 9 digits, one of PubMed Central too, and one of OCLC at most 12.
//! - A number of PubMed Central is without `PMC` and without the version that may be after it, as in `PMC7.1`.
//! - In an address, a number may have other parts of the address after it, but no letter, digit or underscore. After a
//!   word it has nothing after it: `pmid:123456 789` has none.
//! - The address of a DOI may have the name of a proxy after that of the resolver, as in `doi-org.proxy.example.edu`.
//! - An identifier of arXiv is without its version. After it there may be the ending of its file, as in
//!   `2101.00001v2.pdf`, the query of an address or a subject class in square brackets, and nothing else.
//! - The DOI of an identifier of arXiv has both: a DOI, and that identifier.
//! - A closing bracket at the end of an identifier is a part of it if its opening one is. Other punctuation there is
//!   none, though a DOI may end with it.
//! - Among the words of a title an identifier has at least five digits, since `PMC 7` or `PubMed 2005` may be something
//!   else there; before it is a space, and after it a space or punctuation.
//! - Percent-encoding is not decoded, and spaces and quotes beyond ASCII are parts of a text like any others.
#![tactic(auto)]

mod addresses;
mod arxiv;
mod ends;
mod forms;
pub mod laws;
mod mentions;
mod namespace;
mod numbers;
mod places;
mod rests;
mod segments;
mod uris;

pub use addresses::doi_in_address;
pub use mentions::mention_in;
pub use namespace::Namespace;
pub use numbers::{StandardNumber, is_number_alone, is_number_named};
pub use places::{identifier_alone, identifier_in};
pub use uris::uri_of;
