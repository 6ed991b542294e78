//! The menu of a registry and a request.
//!
//! The steps for one target, from left to right; after a row without a link the next matching row is tried:
//!
//! ```text
//! TargetSearch ──> Batch ──> RunSet ──> Fate ──> Resolution ──> MenuEntry
//! the next row     its code, its run,   how the  a link, or     the target's
//! that the         and it    or that    run      why there      name and its
//! Citation has     over the  it is over ended    is none        resolution
//!      ^           request   budget                  │
//!      └──────────── no link, and a further row ─────┘
//! ```
//!
//! All targets are searched side by side: a round of [`interleaved_runs`] tries one row of each, and a [`Watch`]
//! observes the runs.
//!
//! To code that needs menus alone, a registry is passed as [`RegistryMenus`].
//!
//! ```rust
//! let request = read_kev(alloc, query.as_bytes())?;
//! let menu = resolve(alloc, &registry, &request)?;
//! let text = menu.text(alloc)?;
//! ```
#![tactic(auto)]

mod batch;
mod citation;
mod registry_menus;
mod resolution;
mod resolver;
mod searches;
mod target_search;

pub use interleaved_runs::{Blind, Fate, Shown, Watch, play, round, round_over, turn_all};
pub use kbart_rows::{NameSet, Table};
pub use kev_read::Request;
pub use menu::{Menu, MenuEntry, Resolution, Text, is_web_link};
pub use registry::{AddError, AddErrorKind, MAX_TARGETS, Registry, Target};
pub use registry_menus::RegistryMenus;
pub use resolver::{resolve, resolve_watched};
pub use row_scope::{KnownValues, NameColumns, RequestValues, RowScope, TargetRequest};
pub use target_vars::{Env, Scope};
pub use verified_runs::Run;
pub use verifier::Verified;
