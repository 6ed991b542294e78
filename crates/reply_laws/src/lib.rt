//! Laws of the replies of the HTTP front. Each law is the contract of a function with an empty body. `edits/` has
//! wrong definitions and missing premises with which the prover refuses them.
#![tactic(auto)]

mod pieces;
mod replies;
mod served_files;

pub use pieces::pieces_do_not_matter;
pub use replies::{files_decide_replies, files_decide_services};
pub use served_files::files_decide_the_page;
