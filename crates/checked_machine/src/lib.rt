//! The checked machine: runs any code on any environment, and makes at run time every test that the machine's
//! definitions make.
#![tactic(auto)]

mod act;
mod frame;
mod jumps;
mod loads;
mod loops;
mod printing;
mod reading;
mod register;
mod registers;
mod run;
mod step;
mod value;

pub use run::{Checked, run_checked};
