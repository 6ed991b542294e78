//! What gives the menu for a request. Code that is generic over it depends on no targets, tables or codes.
#![tactic(auto)]

mod source;

pub use kev_read::Request;
pub use menu::Menu;
pub use source::MenuSource;
