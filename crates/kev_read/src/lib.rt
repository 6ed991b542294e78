//! OpenURL requests in the key/encoded-value form of ANSI/NISO Z39.88-2004.
//!
//! The differences from the standard are listed at [`read_kev`].
//!
//! A request is read once, and then fills an environment:
//!
//! ```rust
//! let request = read_kev(rt.alloc(), b"x=1&y=2&x=3&%74%3D=1")?;
//! assert!(rt; request.first("t=") == Some("1") && request.first("z").is_none());
//! ```
#![tactic(auto)]

mod decoding;
mod error;
mod filling;
mod key_order;
mod key_sums;
mod key_values;
mod list_keys;
mod marked_key;
mod ordinary;
mod pair_reader;
mod pairs;
mod parts;
mod query_pairs;
mod read;
mod request;
mod values;
mod version;

pub use error::KevError;
pub use key_values::KeyValues;
pub use list_keys::is_standard_list;
pub use query_pairs::QueryPairs;
pub use read::{MAX_PAIRS, MAX_QUERY_BYTES, read_kev};
pub use request::Request;
pub use target_vars::{Env, VarsError};
pub use values::Values;
