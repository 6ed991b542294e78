//! Why bytes are not a holdings table.

use std::alloc::AllocError;
use thiserror::Error;

/// Why a table is rejected. The first two are checked first, in this order; then the lines are read in order, up to the
/// first error. `NoMemory` can be returned instead of an error of the lines, but never instead of the first two, which
/// need no allocation.
#[derive(Clone, Copy, Debug, PartialEq, Eq, Error)]
pub enum TableError {
    /// The table has more than [`MAX_TABLE_BYTES`](crate::MAX_TABLE_BYTES) bytes.
    #[error("TooLong")]
    TooLong,
    /// The bytes are not UTF-8.
    #[error("NotUtf8")]
    NotUtf8,
    /// There is no line that is not blank.
    #[error("NoHeader")]
    NoHeader,
    /// There are more than [`MAX_ROWS`](crate::MAX_ROWS) rows below the header.
    #[error("TooManyRows")]
    TooManyRows,
    /// A row, or the header, has more than [`MAX_ROW_BYTES`](crate::MAX_ROW_BYTES) bytes of cells and tabs.
    #[error("RowTooLong")]
    RowTooLong,
    /// An allocation failed.
    #[error("NoMemory")]
    NoMemory,
}

impl From<AllocError> for TableError {
    ghost use Rattle.kbart_rows.specs.declared.error.TableError.TheVariants.{NoMemory};
    ghost use Rattle.std.specs.Prelude.{◌≡◌};

    ghost from_gives = { λ _ e. e ≡ NoMemory };

    fn from(_e: AllocError) -> TableError {
        TableError::NoMemory
    }
}
