//! What is doubtful in the rules of a target: names that nothing defines, rules that are never reached, guards that
//! never hold, and links whose host a request can set.
#![tactic(auto)]

mod check;
mod columns;
mod distinct;
mod host;
mod host_state;
mod lines;
mod names;
mod place;
mod reach;
mod resemblance;
mod review;
mod starts;
mod target;
mod template_names;
mod varchars;
mod web_link;

pub use place::Place;
pub use printed_text::Findings;
pub use review::lint;
