//! The interpreter: runs accepted code. It also exports the checked machine, with which tests compare these runs.
//!
//! [`prepare`] makes a [`Run`] of code that the verifier accepted. A run tests no tags, indexes or jumps, and can be
//! carried out in turns of any number of steps. [`run_checked`] runs any code on any environment, with every test that
//! the machine's definitions make.
//!
//! ```rust
//! let code = load(alloc, file)?;
//! let mut run = prepare(alloc, &code, &env)?;
//! if run.advance(64) {
//!     let outcome = run.finish();
//! }
//! ```
#![tactic(auto)]

pub use checked_machine::{Checked, run_checked};
pub use code_file::Code;
pub use target_vars::{Env, Scope};
pub use verified_runs::{
    MAX_LINK_BYTES, Outcome, PrepareError, Run, Step, Turn, Words, prepare, step,
};
pub use verifier::Verified;
