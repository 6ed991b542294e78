//! The verifier: it reads code from strangers, and accepts only code that is safe on every environment.
//!
//! ```rust
//! let verified = load(rt.alloc(), &file)?;
//! let code = verified.code();
//! if place < code.len() {
//!     let instruction = verified.instruction(place);
//! }
//! ```
#![tactic(auto)]

mod bodies;
mod compared;
mod edges;
mod error;
mod form;
pub mod laws;
mod layout;
mod loading;
mod mismatch;
mod needs;
mod row;
mod verified;
mod walk;

pub use budget::Budget;
pub use code_file::{Code, CodeError, CodeErrorKind};
pub use code_model::Instruction;
pub use error::LoadError;
pub use loading::load;
pub use verified::Verified;
