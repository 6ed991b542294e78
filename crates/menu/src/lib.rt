//! The menu of links: for each target its link, or the reason why it has none, and the three texts in which
//! a menu is printed.
#![tactic(auto)]

mod entry;
mod html;
pub mod laws;
mod lines;
mod menu;
mod web_link;

pub use entry::{MenuEntry, Resolution};
pub use menu::Menu;
pub use uri_text::Text;
pub use web_link::is_web_link;
