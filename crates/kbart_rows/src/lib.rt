//! Holdings tables in the KBART format (NISO RP-9-2014): which rows have a cited title, and their cells.
//!
//! The differences from the recommended practice are listed at [`Table`].
//!
//! ```rust
//! let table = Table::read(rt.alloc(), b"a\t\n1\t2\n")?;
//! assert!(rt; table.rows() == 1 && table.cell(0, "") == Some("2"));
//! ```
#![tactic(auto)]

mod cells;
mod columns;
mod error;
mod filling;
mod identifier;
mod ids;
mod index;
mod key_source;
mod keys;
mod matches;
mod name_set;
mod read;
mod records;
mod row_cursor;
mod runs;
mod sharing;
mod sums;
mod table;
mod tabs;

pub use cells::{cell_count, cell_in};
pub use csv::Reader;
pub use error::TableError;
pub use identifier::{normalised, write_normal};
pub use ids::Ids;
pub use kev_read::Request;
pub use key_source::{KeySource, NoKeys, SystemKeys};
pub use keys::Keys;
pub use matches::Matches;
pub use name_set::NameSet;
pub use read::{MAX_ROW_BYTES, MAX_ROWS, MAX_TABLE_BYTES, tab_separated_reader};
pub use row_cursor::RowCursor;
pub use sharing::Sharing;
pub use table::Table;
pub use target_vars::{Env, VarsError};
