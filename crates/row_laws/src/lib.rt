//! Laws of a row over a request: a cell hides the request's value of its name. Each law is the contract of a function
//! with an empty body.
#![tactic(auto)]

mod hidden;
mod requests;
mod rows;
mod visible;

pub use hidden::hidden_by_columns;
pub use requests::{
    one_more_list, requests_are_small, requests_by_keys, same_lists, sums_by_values,
};
pub use rows::{row_bytes_are_cell_bytes, rows_by_names};
pub use visible::{rows_shadow_requests, sums_of_rows_over_requests};
