//! Tests of queries of sources, their requests, and the links and lines for them, for what no contract says: whole
//! examples, and sizes at the limits.
#![tactic(auto)]

#[cfg(test)]
mod json;
#[cfg(test)]
mod lines;
#[cfg(test)]
mod links;
#[cfg(test)]
mod requests;
#[cfg(test)]
mod targets;
