//! Files at paths: each is read as a whole, up to a limit, or placed as a whole; and texts written to an output.
//!
//! Code that opens files is generic over the trait [`Files`]. [`SystemFiles`] are those of the system.
#![tactic(auto)]

mod call;
mod error;
mod files;
mod output;
mod placing;
mod printed_path;
mod reading;
mod system;

pub use call::FileCall;
pub use error::{FileError, ReadError};
pub use files::Files;
pub use output::write_text;
pub use placing::place;
pub use printed_path::PrintedPath;
pub use reading::read_whole;
pub use system::SystemFiles;
