//! A row of a table over a request, as an environment for which no text is copied: each is a piece of the row's line,
//! or one of the request's values.
//!
//! What is computed, each from those to its left:
//!
//! ```text
//! a request         a code over a table     a request at a target     a row
//! RequestValues     NameColumns             TargetRequest             RowScope
//! the values of     which columns have      what its names have in    what its names have, in the
//! each key          the code's names        the request alone         row or else in the request
//! ```
#![tactic(auto)]

mod binding;
mod hidden;
mod known_values;
mod name_columns;
mod name_numbers;
mod request_values;
mod row_scope;
mod target_request;

pub use known_values::KnownValues;
pub use name_columns::NameColumns;
pub use request_values::RequestValues;
pub use row_scope::RowScope;
pub use target_request::TargetRequest;
