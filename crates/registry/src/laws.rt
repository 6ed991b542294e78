//! What follows from the definition of a menu. These functions have empty bodies; each contract is a theorem.

ghost use Rattle.std.specs.Prelude.{◌≡◌, ℕ, ◌+◌, ◌<◌, ◌≤◌, List, [], ◌∷◌, None, Some, true, false, filter, nat_le};
ghost use Rattle.environment_model.specs.Environment.{Environment};
ghost use Rattle.code_model.specs.Code.{Code};
ghost use Rattle.machine_model.specs.Runs.{HasOutcome, Outcome};
ghost use Rattle.kev_read.specs.Pairs.{KeyValue};
ghost use Rattle.kbart_rows.specs.Identifiers.{first_from};
ghost use Rattle.menu.specs.Links.{is_link};
ghost use Rattle.menu.specs.declared.entry.Resolution.{Resolution};
ghost use Rattle.menu.specs.declared.entry.Resolution.TheVariants.{NoRow};
ghost use Rattle.registry.specs.Targets.{TargetValue, IsRegistry};
ghost use Rattle.verified_runs.specs.Fates.{OverBudget, ended, fate_in, most_bytes_in};
ghost use Rattle.registry.specs.Entries.{matching_rows_of, menu_of, resolution_from, resolution_of, resolution_of_row};
ghost use Rattle.registry.specs.MenuLinks.{IsSoundMenu};

use machine_laws::course_is_decided;
use verified_runs::MAX_LINK_BYTES;

/// The resolution of a target is found row by row, from row 0 on; before the first row it is `NoRow`. If no further row
/// matches, the result is the resolution so far. If the next matching row gives a link, that is the result. Otherwise
/// the search continues after that row, whose resolution is now the one so far.
pub fn rows_are_tried_in_order()
    ensures start { (target : TargetValue) (pairs : List KeyValue)
        → resolution_of target pairs ≡ resolution_from target pairs 0 NoRow }
    ensures no_more { (target : TargetValue) (pairs : List KeyValue) (from : ℕ) (so_far : Resolution) →
        first_from from (matching_rows_of target pairs) ≡ None → resolution_from target pairs from so_far ≡ so_far }
    ensures link { (target : TargetValue) (pairs : List KeyValue) (from row : ℕ) (so_far : Resolution) →
        first_from from (matching_rows_of target pairs) ≡ Some row → is_link (resolution_of_row target pairs row) ≡ true
        → resolution_from target pairs from so_far ≡ resolution_of_row target pairs row }
    ensures no_link { (target : TargetValue) (pairs : List KeyValue) (from row : ℕ) (so_far : Resolution) →
        first_from from (matching_rows_of target pairs) ≡ Some row → is_link (resolution_of_row target pairs row)
        ≡ false
        → resolution_from target pairs from so_far ≡ resolution_from target pairs (row + 1)
        (resolution_of_row target pairs row) }
{}

/// The matching rows of a target are in rising order. Those at or after row 0 are all of them. Those at or after any
/// row are none, or the first one and those after it.
pub fn matching_rows_rise()
    ensures start { (target : TargetValue) (pairs : List KeyValue) → filter (nat_le 0) (matching_rows_of target pairs)
        ≡ matching_rows_of target pairs }
    ensures no_more { (target : TargetValue) (pairs : List KeyValue) (from : ℕ) →
        first_from from (matching_rows_of target pairs) ≡ None → filter (nat_le from) (matching_rows_of target pairs)
        ≡ [] }
    ensures next { (target : TargetValue) (pairs : List KeyValue) (from row : ℕ) →
        first_from from (matching_rows_of target pairs) ≡ Some row
        → filter (nat_le from) (matching_rows_of target pairs)
        ≡ row ∷ filter (nat_le (row + 1)) (matching_rows_of target pairs) }
{}

/// The fate of code in an environment is over budget exactly if its bound on bytes exceeds the limit, and otherwise it
/// is the outcome of the machine.
pub fn fates_are_decided()
    ensures over { (code : Code) (env : Environment) → MAX_LINK_BYTES < most_bytes_in code env
        → fate_in code env ≡ OverBudget (most_bytes_in code env) }
    ensures ran { (code : Code) (env : Environment) (outcome : Outcome) →
        most_bytes_in code env ≤ MAX_LINK_BYTES → HasOutcome code env outcome → fate_in code env ≡ ended outcome }
{
    course_is_decided();
}

/// A menu of a registry has only names of targets, and only web links that are URI text, whatever the request. So what
/// the laws of [`menu`] say about such names and links holds for all of its entries.
pub fn menus_are_sound()
    ensures { (targets : List TargetValue) (pairs : List KeyValue) → IsRegistry targets
        → IsSoundMenu (menu_of targets pairs) }
{
    course_is_decided();
}
