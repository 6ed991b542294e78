//! Rule text: the guards and links of a target, read from their lines, and what they mean in an environment.
//!
//! ```rust
//! let rules = Rules::parse(alloc, b"rule\nlink http://e.org/{x}\n")?;
//! let link: Option<String> = meaning(alloc, &rules, &env)?;
//! ```
#![tactic(auto)]

mod error;
mod first_link;
mod guard;
mod guards;
mod kinds;
pub mod laws;
mod lines;
mod mentions;
mod names;
mod reader;
mod rule;
mod rules;
mod spelling;
mod view;

pub use error::{NO_MEMORY, RuleError, RuleErrorKind};
pub use first_link::meaning;
pub use guard::MAX_DIGITS;
pub use guards::holds;
pub use rule::{Bound, Guard, Guards, Rule};
pub use rules::{MAX_BYTES, Rules};
pub use spelling::push_guard;
pub use target_vars::{Env, Members};
pub use uri_grammar::{Template, TemplateErrorKind, Text};
pub use uri_template::Variables;
pub use view::RulesView;
