//! The keys of ANSI/NISO Z39.88-2004 that are lists in every request, since they can occur more than once.

/// Authors of the referent.
pub const AUTHORS: &str = "rft.au";

/// Identifiers of the referent.
pub const IDENTIFIERS: &str = "rft_id";
