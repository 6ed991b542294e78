//! Runs of accepted code that are interleaved: in turns of any order, or all of them until each has ended.
//!
//! A [`round`] runs each code on its environment, all side by side, and returns how each ended. A [`Watch`] observes
//! the runs of a round after each turn; [`Shown`] records what it observed, and [`Blind`] records nothing. Turns,
//! watches and [`round_over`] work over any [`Scope`](target_vars::Scope), which is an environment as a run sees it.
//!
//! ```rust
//! let mut runs = vec![in alloc; prepare(alloc, &code, &env)?, prepare(alloc, &code, &other_env)?]?;
//! let live = turn_all(&mut runs, 64);
//! ```
#![tactic(auto)]

mod blind;
mod fate;
mod recorder;
mod rounds;
mod run_set;
mod turns;
mod watch;

pub use blind::Blind;
pub use fate::Fate;
pub use recorder::Shown;
pub use rounds::{round, round_over};
pub use target_vars::{Env, Scope};
pub use turns::{play, turn_all};
pub use verified_runs::Run;
pub use verifier::Verified;
pub use watch::Watch;
