//! The laws of the byte-code machine. Each is the contract of a function with an empty body, which is a theorem.
#![tactic(auto)]

mod runs;
mod safe;
mod steps;
mod typable;
mod upgrade;

pub use runs::{course_is_decided, every_run_ends, run_ends_once, running_precedes_the_end};
pub use safe::{reached_states_conform, typable_code_is_safe};
pub use steps::{no_state_has_two_next_states, states_after_steps_are_decided, step_is_decided};
pub use typable::{
    form_is_decided, least_table_decides, mismatch_is_exact, one_least_table,
    passes_find_the_least_table,
};
pub use upgrade::upgrade_keeps_what_code_does;
