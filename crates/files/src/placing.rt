//! Placing a whole file: after any failure the old file or the new one is complete.

ghost use Rattle.std.specs.Prelude.{◌≡◌, ◌≢◌, ℕ, List, [], Err, IfOk, IfSome, OnErr, OnOk, string_bytes};
ghost use Rattle.files.specs.Found.{Absent, IsFile, IsFree};
ghost use Rattle.files.specs.Changes.{ChangesOnly, kept, removed};
ghost use Rattle.files.specs.Modes.{ChangesModeOnly, IsMode};
ghost use Rattle.files.specs.Placing.{IsAsBefore, IsPlaced, IsPlaceFailure, IsPlaceShortage, KeepsModes, beside};
ghost use Rattle.files.specs.Placing.{IsDraftFailure, IsUnwritten};
ghost use Rattle.files.specs.declared.error.FileError.TheVariants.{Failed, NoMemory};

use crate::error::FileError;
use crate::files::Files;
use std::alloc::{AllocError, Global};

/// Places a file of these bytes at the path, or leaves the path as it was.
///
/// The bytes are written to a new file, `PATH.new`, which gets the mode of the file at `PATH`. Once the system has
/// stored it, it is renamed to `PATH`, so that after a crash the old file or the new one is complete. After a failure
/// `PATH.new` is removed.
///
/// Fails if `PATH.new` exists, which then stays as it is, or if there is something at the path that is not a regular
/// file, such as a symbolic link.
pub fn place<F: Files>(
    alloc: Global,
    files: &mut F,
    path: &str,
    bytes: &[u8],
) -> Result<(), FileError>
    ensures placed { OnOk result (IsPlaced (F.at files.old) path.now bytes.now (F.at files.new)) }
    ensures err { OnErr result (IsAsBefore F.at F.fails (F.at files.old) path.now files.new) }
    ensures modes { KeepsModes (F.mode_at files.old) path.now (F.mode_at files.new) }
    ensures failed { result ≡ Err Failed → IsPlaceFailure F.at F.fails files.old path.now files.new }
    ensures ran_out { result ≡ Err NoMemory → IsPlaceShortage F.at F.runs_out files.old path.now files.new }
{
    let beside = path_beside(alloc, path)?;
    let mode = files.check_place(path)?;
    place_by(files, beside.as_str(), path, mode, bytes)
}

/// The path of the new file.
fn path_beside(alloc: Global, path: &str) -> Result<String, AllocError>
    ensures { IfOk result (λ other. string_bytes other ≡ beside path.now) }
{
    format!(in alloc; "{path}.new")
}

/// Writes the new file at `other`, and renames it to `path`, at which there is a regular file of this mode, or nothing.
fn place_by<F: Files>(
    files: &mut F,
    other: &str,
    path: &str,
    mode: Option<u32>,
    bytes: &[u8],
) -> Result<(), FileError>
    requires { other.now ≡ beside path.now }
    ensures free { OnOk result (IsFree (F.at files.old other.now)) }
    ensures there { OnOk result (IsFile (F.at files.new path.now) bytes.now) }
    ensures others { OnOk result (ChangesOnly path.now (F.at files.old) (F.at files.new)) }
    ensures err { OnErr result (IsAsBefore F.at F.fails (F.at files.old) path.now files.new) }
    ensures mode { OnOk result (IfSome mode (IsMode (F.mode_at files.new path.now))) }
    ensures same_mode { OnErr result (F.mode_at files.new path.now ≡ F.mode_at files.old path.now) }
    ensures modes { (p : List ℕ) → p ≢ other.now → p ≢ path.now → F.mode_at files.new p ≡ F.mode_at files.old p }
    ensures failed { result ≡ Err Failed → IsUnwritten F.at F.fails (F.at files.old) path.now files.new }
    ensures ran_out { result ≡ Err NoMemory → IsUnwritten F.at F.runs_out (F.at files.old) path.now files.new }
{
    let draft = files.create(other)?;
    match fill(files, draft, other, path, mode, bytes) {
        Ok(()) => Ok(()),
        Err(e) => {
            let _ = files.remove(other);
            Err(e)
        }
    }
}

/// Gives a new file at `other` the mode and all of the bytes, has it stored, and renames it to `path`.
fn fill<F: Files>(
    files: &mut F,
    draft: F::Draft,
    other: &str,
    path: &str,
    mode: Option<u32>,
    bytes: &[u8],
) -> Result<(), FileError>
    requires draft { F.drafted draft other.now [] }
    requires exists { F.at files.old other.now ≢ Absent }
    requires apart { other.now ≢ path.now }
    ensures there { OnOk result (F.at files.new path.now ≡ kept bytes.now (F.at files.old other.now)) }
    ensures gone { OnOk result (F.at files.new other.now ≡ removed (F.at files.old other.now)) }
    ensures others { OnOk result ((p : List ℕ) → p ≢ other.now → p ≢ path.now → F.at files.new p ≡ F.at files.old p) }
    ensures err { OnErr result (ChangesOnly other.now (F.at files.old) (F.at files.new)) }
    ensures left { OnErr result (removed (F.at files.new other.now) ≡ removed (F.at files.old other.now)) }
    ensures remains { OnErr result (F.at files.new other.now ≢ Absent) }
    ensures mode { OnOk result (IfSome mode (IsMode (F.mode_at files.new path.now))) }
    ensures modes { (p : List ℕ) → p ≢ other.now → p ≢ path.now → F.mode_at files.new p ≡ F.mode_at files.old p }
    ensures same_modes { OnErr result (ChangesModeOnly other.now (F.mode_at files.old) (F.mode_at files.new)) }
    ensures failed { result ≡ Err Failed → IsDraftFailure F.at F.fails (F.at files.old) other.now }
    ensures ran_out { result ≡ Err NoMemory → IsDraftFailure F.at F.runs_out (F.at files.old) other.now }
{
    let mut draft = draft;
    // The mode is set first, so that only those whom it lets read the file can read its bytes.
    if let Some(mode) = mode {
        files.set_mode(&draft, mode)?;
    }
    files.write(&mut draft, bytes)?;
    files.keep(draft)?;
    files.rename(other, path)
}
