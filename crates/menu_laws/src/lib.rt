//! Laws of menus that a library can rely on: what one target, one key of a request and one update of a table can
//! change, which host a link can have, and how much work a request is. Each law is the contract of a function with an
//! empty body. `edits/` has wrong definitions and missing premises with which the prover refuses them.
#![tactic(auto)]

mod hosts;
mod requests;
mod tables;
mod targets;
mod text;
mod updates;
mod work;

pub use hosts::no_open_redirect;
pub use requests::{code_reads_its_names_alone, readers_keys_stay_out};
pub use tables::clean_tables_have_no_dead_row;
pub use targets::{targets_are_independent, targets_have_their_shares};
pub use text::text_is_read_as_its_links;
pub use updates::{appended_rows_keep_links, other_rows_change_numbers_alone};
pub use work::{rows_over_requests_are_small, work_of_a_request_is_bounded};
