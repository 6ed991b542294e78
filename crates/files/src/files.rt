//! The trait over files.

ghost use Rattle.std.specs.Prelude.{◌≡◌, ◌≢◌, ◌<◌, ◌+◌, ◌^◌, ◌++◌, ℕ, List, [], Option, Err, IfErr, IfOk, OnErr, OnOk};
ghost use Rattle.files.specs.Found.{Found, Absent, Other, IsFree, IsFrontOf};
ghost use Rattle.files.specs.Changes.{ChangesOnly, Unchanged, created, kept, removed};
ghost use Rattle.files.specs.Modes.{ChangesModeOnly, HasSameModes, IsFoundMode, IsMode};
ghost use Rattle.files.specs.declared.call.FileCall.{FileCall};
ghost use Rattle.files.specs.declared.call.FileCall.TheVariants.{Read, Check, Create, SetMode, Write, Keep, Rename};
ghost use Rattle.files.specs.declared.call.FileCall.TheVariants.{Remove};
ghost use Rattle.files.specs.declared.error.FileError.TheVariants.{Failed, NoMemory};

use crate::error::FileError;
use std::alloc::Global;

/// Files at paths, as a program sees them.
///
/// Each call may fail at any time; a call that fails changes nothing at any path.
pub trait Files {
    /// A new file that is being written.
    type Draft: Drop;

    /// What an implementer says is at a path.
    ghost at: { Self → List ℕ → Found };

    /// What an implementer says is the mode of the file at a path: who may read, write and run it.
    ghost mode_at: { Self → List ℕ → Option ℕ };

    /// Between the two states, a call of this kind failed at the path.
    ghost fails: { Self → FileCall → List ℕ → Self → Type 0 };

    /// Between the two states, a call of this kind ran out of memory at the path.
    ghost runs_out: { Self → FileCall → List ℕ → Self → Type 0 };

    /// The path of a new file, and the bytes that have been written to it so far.
    ghost drafted: { Self.Draft → List ℕ → List ℕ → Type 0 };

    /// Reads the first `limit` + 1 bytes of the file at the path, or all if it has fewer. So a file that is longer than
    /// `limit` can be recognised.
    fn read(&mut self, alloc: Global, path: &str, limit: usize) -> Result<Vec<u8>, FileError>
        requires { limit + 1 < 2 ^ 63 }
        ensures front { IfOk result (λ front. IsFrontOf limit (at self.old path.now) front.items) }
        ensures absent { at self.old path.now ≡ Absent → result ≡ Err Failed }
        ensures same { Unchanged (at self.old) (at self.new) }
        ensures modes { HasSameModes (mode_at self.old) (mode_at self.new) }
        ensures failed { result ≡ Err Failed → fails self.old Read path.now self.new }
        ensures ran_out { result ≡ Err NoMemory → runs_out self.old Read path.now self.new };

    /// The mode of the file at the path; `None` if nothing is there. Fails if there is something that is not a regular
    /// file.
    fn check_place(&mut self, path: &str) -> Result<Option<u32>, FileError>
        ensures ok { OnOk result (at self.old path.now ≢ Other) }
        ensures mode { IfOk result (IsFoundMode (mode_at self.old path.now)) }
        ensures same { Unchanged (at self.old) (at self.new) }
        ensures modes { HasSameModes (mode_at self.old) (mode_at self.new) }
        ensures failed { result ≡ Err Failed → fails self.old Check path.now self.new }
        ensures ran_out { result ≡ Err NoMemory → runs_out self.old Check path.now self.new };

    /// Creates an empty file. Fails if there is anything at the path.
    fn create(&mut self, path: &str) -> Result<Self::Draft, FileError>
        ensures draft { IfOk result (λ draft. drafted draft path.now []) }
        ensures free { OnOk result (IsFree (at self.old path.now)) }
        ensures here { OnOk result (at self.new path.now ≡ created (at self.old path.now)) }
        ensures others { OnOk result (ChangesOnly path.now (at self.old) (at self.new)) }
        ensures err { OnErr result (Unchanged (at self.old) (at self.new)) }
        ensures modes { ChangesModeOnly path.now (mode_at self.old) (mode_at self.new) }
        ensures failed { result ≡ Err Failed → fails self.old Create path.now self.new }
        ensures ran_out { result ≡ Err NoMemory → runs_out self.old Create path.now self.new };

    /// Sets the mode of a new file.
    fn set_mode(&mut self, draft: &Self::Draft, mode: u32) -> Result<(), FileError>
        ensures mode { OnOk result ((path bytes : List ℕ) → drafted draft.now path bytes
            → IsMode (mode_at self.new path) mode) }
        ensures modes { (path bytes : List ℕ) → drafted draft.now path bytes
            → ChangesModeOnly path (mode_at self.old) (mode_at self.new) }
        ensures same { Unchanged (at self.old) (at self.new) }
        ensures failed { result ≡ Err Failed → (path bytes : List ℕ) → drafted draft.now path bytes
            → fails self.old SetMode path self.new }
        ensures ran_out { result ≡ Err NoMemory → (path bytes : List ℕ) → drafted draft.now path bytes
            → runs_out self.old SetMode path self.new };

    /// Appends all of the bytes to a new file.
    fn write(&mut self, draft: &mut Self::Draft, bytes: &[u8]) -> Result<(), FileError>
        ensures written { OnOk result ((path before : List ℕ) → drafted draft.old path before
            → drafted draft.new path (before ++ bytes.now)) }
        ensures same { Unchanged (at self.old) (at self.new) }
        ensures modes { HasSameModes (mode_at self.old) (mode_at self.new) }
        ensures failed { result ≡ Err Failed → (path before : List ℕ) → drafted draft.old path before
            → fails self.old Write path self.new }
        ensures ran_out { result ≡ Err NoMemory → (path before : List ℕ) → drafted draft.old path before
            → runs_out self.old Write path self.new };

    /// Finishes a new file: the system stores what was written, and from then on there is a file of these bytes at its
    /// path.
    fn keep(&mut self, draft: Self::Draft) -> Result<(), FileError>
        ensures here { OnOk result ((path bytes : List ℕ) → drafted draft path bytes
            → at self.new path ≡ kept bytes (at self.old path)) }
        ensures others { OnOk result ((path bytes : List ℕ) → drafted draft path bytes
            → ChangesOnly path (at self.old) (at self.new)) }
        ensures err { OnErr result (Unchanged (at self.old) (at self.new)) }
        ensures modes { HasSameModes (mode_at self.old) (mode_at self.new) }
        ensures failed { result ≡ Err Failed → (path bytes : List ℕ) → drafted draft path bytes
            → fails self.old Keep path self.new }
        ensures ran_out { result ≡ Err NoMemory → (path bytes : List ℕ) → drafted draft path bytes
            → runs_out self.old Keep path self.new };

    /// Moves what is at the first path to the second, in one step. What was at the second path is gone.
    fn rename(&mut self, from: &str, to: &str) -> Result<(), FileError>
        requires { from.now ≢ to.now }
        ensures there { OnOk result (at self.new to.now ≡ at self.old from.now) }
        ensures gone { OnOk result (at self.new from.now ≡ removed (at self.old from.now)) }
        ensures others { OnOk result ((other : List ℕ) → other ≢ from.now → other ≢ to.now
            → at self.new other ≡ at self.old other) }
        ensures err { OnErr result (Unchanged (at self.old) (at self.new)) }
        ensures mode { OnOk result (mode_at self.new to.now ≡ mode_at self.old from.now) }
        ensures modes { (other : List ℕ) → other ≢ from.now → other ≢ to.now
            → mode_at self.new other ≡ mode_at self.old other }
        ensures same_modes { OnErr result (HasSameModes (mode_at self.old) (mode_at self.new)) }
        ensures failed { result ≡ Err Failed → fails self.old Rename from.now self.new }
        ensures ran_out { result ≡ Err NoMemory → runs_out self.old Rename from.now self.new };

    /// Removes the file at the path. It never reports that memory ran out.
    fn remove(&mut self, path: &str) -> Result<(), FileError>
        ensures gone { OnOk result (at self.new path.now ≡ removed (at self.old path.now)) }
        ensures others { OnOk result (ChangesOnly path.now (at self.old) (at self.new)) }
        ensures err { OnErr result (Unchanged (at self.old) (at self.new)) }
        ensures modes { ChangesModeOnly path.now (mode_at self.old) (mode_at self.new) }
        ensures kind { IfErr result (λ e. e ≡ Failed) }
        ensures failed { result ≡ Err Failed → fails self.old Remove path.now self.new };
}
