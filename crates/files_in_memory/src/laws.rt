//! Laws of files in memory. Each function has an empty body, and its contract is a theorem.

ghost use Rattle.std.specs.Prelude.{◌≡◌, ◌≢◌, ◌⊎◌, ℕ, List};
ghost use Rattle.files.specs.Found.{Absent, Other};
ghost use Rattle.files.specs.Changes.{Unchanged};
ghost use Rattle.files.specs.Placing.{IsAsBefore, IsPlaceFailure, beside};
ghost use Rattle.files_in_memory.specs.InMemory.{HasRefused, disk_of};
ghost use Rattle.files_in_memory.specs.declared.memory.Memory.{Memory};

/// Placing a file in memory fails only if there is something at the path that is not a regular file, or anything at
/// that of the new file. Then, and if memory runs out, nothing has changed.
pub fn placing_fails_for_what_is_there()
    ensures cause { (old new : Memory) (path : List ℕ) → IsPlaceFailure disk_of HasRefused old path new
        → (disk_of old path ≡ Other) ⊎ (disk_of old (beside path) ≢ Absent) }
    ensures same { (old new : Memory) (path : List ℕ) → IsAsBefore disk_of HasRefused (disk_of old) path new
        → Unchanged (disk_of old) (disk_of new) }
{}
