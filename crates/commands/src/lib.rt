//! The commands of the program: the arguments of each, the files that it reads and writes, what it prints, and its exit
//! status.
//!
//! [`command`] is the whole program but for its runtime.
#![tactic(auto)]

mod arguments;
mod code;
mod fault;
mod help;
mod list_options;
mod menus;
mod placing;
mod printing;
mod process_arguments;
mod program;
mod reading;
mod rules;
mod service;
mod serving;
mod source;
mod targets;
mod world;

pub use arguments::{Command, parse};
pub use fault::Fault;
pub use list_options::{ExpandArguments, expand_arguments};
pub use process_arguments::{argument_texts, program_arguments};
pub use program::{carry_out, command, report};
pub use service::Service;
pub use world::{System, World};
