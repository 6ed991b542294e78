//! What decides whether code has good form and is typable.

ghost use Rattle.std.specs.Prelude.{◌≡◌, ◌↔◌, ℕ, None, length, true};
ghost use Rattle.code_model.specs.Code.{Code};
ghost use Rattle.machine_model.specs.First.{Located};
ghost use Rattle.machine_model.specs.Form.{HasGoodForm, first_form_fault};
ghost use Rattle.machine_model.specs.Typable.{Table, IsClosed, MeetsNeeds, IsTypable, TableBelow, IsLeast};
ghost use Rattle.machine_model.specs.Mismatch.{first_mismatch, IsFirstMismatch};
ghost use Rattle.machine_model.specs.Passes.{table_in, passes, is_closed};

/// A code has good form exactly if no first error is found.
pub fn form_is_decided()
    ensures { (c : Code) → HasGoodForm c ↔ (first_form_fault c ≡ None) }
{}

/// Two least tables of a code are equal.
pub fn one_least_table()
    ensures { (c : Code) (t u : Table) → IsLeast c t → IsLeast c u → t ≡ u }
{}

/// The least table of a code decides whether the code is typable: if the needs of its instructions are not met in that
/// table, they are met in none. There is a first mismatch exactly if a need is not met.
pub fn least_table_decides()
    ensures typable { (c : Code) (t : Table) → IsLeast c t → MeetsNeeds c t ↔ IsTypable c }
    ensures mismatch { (c : Code) (t : Table) → MeetsNeeds c t ↔ (first_mismatch c t ≡ None) }
{}

/// A code has at most one first mismatch, and a code that has one is not typable.
pub fn mismatch_is_exact()
    ensures one { (c : Code) (m n : Located ℕ) → IsFirstMismatch c m → IsFirstMismatch c n → m ≡ n }
    ensures untypable { (c : Code) (m : Located ℕ) → IsFirstMismatch c m → IsTypable c → ⊥ }
{}

/// Passes along all edges give a table that is at or below every closed table. If it is closed, it is the least table.
pub fn passes_find_the_least_table()
    ensures below { (c : Code) (u : Table) (n : ℕ) → HasGoodForm c → IsClosed c u
        → TableBelow (table_in (passes c n)) u }
    ensures least { (c : Code) (n : ℕ) → HasGoodForm c → is_closed c (length c.instrs) (passes c n) ≡ true
        → IsLeast c (table_in (passes c n)) }
{}
