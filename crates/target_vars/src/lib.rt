//! The environment: the variables that templates, guards and code look up by name.
//!
//! ```rust
//! let mut env = Env::new(rt.alloc());
//! env.put_text("%41", "x")?;
//! env.add_member("%42", "a")?;
//! env.add_member("%42", "b")?;
//! ```
#![tactic(auto)]

mod env;
mod error;
mod lists;
mod members;
mod members_iter;
mod names;
mod place;
mod room;
mod scope;

pub use env::{Env, MAX_BYTES, MAX_MEMBERS};
pub use error::VarsError;
pub use lists::{AUTHORS, IDENTIFIERS};
pub use members::Members;
pub use members_iter::MembersIter;
pub use scope::Scope;
