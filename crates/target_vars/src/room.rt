//! Reserving memory. The first allocation has room for what a row and a request usually have, so that an ordinary
//! environment needs few allocations.

ghost use Rattle.std.specs.Prelude.{◌≡◌, ◌+◌, ◌≤◌, OnOk, vec_len, vec_capacity, string_bytes, string_len};
ghost use Rattle.std.specs.Prelude.{string_capacity};

use std::alloc::AllocError;

/// The first capacity of vectors that have an item for each name.
pub(crate) const FIRST_NAMES: usize = 32;

/// The first capacity of buffers of names, and of texts and members, in bytes.
pub(crate) const FIRST_BYTES: usize = 512;

/// Makes room for `additional` more items; the first time, for at least the first capacity.
pub(crate) fn reserve_items<T>(
    items: &mut Vec<T>,
    additional: usize,
    first: usize,
) -> Result<(), AllocError>
    ensures items { items.new.items ≡ items.old.items }
    ensures ok { OnOk result (vec_len items.new + additional ≤ vec_capacity items.new) }
{
    if items.is_empty() {
        items.reserve(first)?;
    }
    items.reserve(additional)
}

/// Makes room in the buffer for that many more bytes; the first time, for at least the first capacity.
pub(crate) fn reserve(buffer: &mut String, additional: usize) -> Result<(), AllocError>
    ensures bytes { string_bytes buffer.new ≡ string_bytes buffer.old }
    ensures len { string_len buffer.new ≡ string_len buffer.old }
    ensures ok { OnOk result (string_len buffer.new + additional ≤ string_capacity buffer.new) }
{
    if buffer.is_empty() {
        buffer.reserve(FIRST_BYTES)?;
    }
    buffer.reserve(additional)
}
