//! The menu that the rules of a registry's targets give: definitions, and laws about them. Nothing here runs.
#![tactic(auto)]

pub mod laws;
