//! Streams and a listener over memory, for tests. Contracts see their bytes and their connections, and they fail when a
//! test says so.
#![tactic(auto)]

mod fault;
mod peers;
mod pieces;
mod tape;

pub use peers::Peers;
pub use pieces::{PieceIn, PieceOut};
pub use tape::Tape;
