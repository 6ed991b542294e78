//! What rules are compiled to: the code of each guard, expression and rule, and the laws of that code.
//! Definitions and laws; nothing here runs.
#![tactic(auto)]

pub mod laws;
mod lines;

pub use lines::{Action, Line, Target, Test};
