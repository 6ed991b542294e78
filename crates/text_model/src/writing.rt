//! Which characters a link keeps as they are.

/// Which characters of a value stay as they are in a link, the column `allow` of RFC 6570,
/// appendix A. Every other byte becomes a triplet.
#[derive(Clone, Copy, PartialEq, Eq)]
pub enum Writing {
    /// Unreserved characters.
    U,
    /// Unreserved and reserved characters, and whole triplets.
    UR,
}
