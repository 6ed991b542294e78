//! The definitions of the byte-code machine: its states and steps, the form and the kinds of code, its budget, and what
//! makes code safe. Only definitions; nothing here runs.
#![tactic(auto)]

mod form;
mod kind;

pub use form::{Body, FormFault};
pub use kind::Kind;
