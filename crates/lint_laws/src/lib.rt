//! Laws of the findings of `lint`: what each says of the meaning of the rules. Each law is the contract of a function
//! with an empty body.
#![tactic(auto)]

mod browsers;
mod hosts;
mod names;
mod rules;

pub use browsers::browsers_have_plain_hosts;
pub use hosts::{fixed_hosts_have_no_finding, no_request_sets_the_host};
pub use names::names_are_those_of_templates;
pub use rules::{
    guards_that_never_hold_fail, no_web_link_is_expanded, unreached_rules_change_nothing,
};
