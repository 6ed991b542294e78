//! How much work a request is.

ghost use Rattle.std.specs.Prelude.{◌≤◌, ◌+◌, ◌*◌, ℕ, List, All, length};
ghost use Rattle.std.specs.List.{sum};
ghost use Rattle.text_model.specs.Texts.{Text};
ghost use Rattle.environment_model.specs.Environment.{byte_count, member_count};
ghost use Rattle.kev_read.specs.Pairs.{KeyValue};
ghost use Rattle.kev_read.specs.ReadQuery.{ReadQuery, IsBounded};
ghost use Rattle.kbart_rows.specs.Reading.{IsTable};
ghost use Rattle.kbart_rows.specs.declared.read.TheConstants.{MAX_ROW_BYTES};
ghost use Rattle.registry.specs.RowEnvironments.{row_environment};
ghost use Rattle.registry.specs.Targets.{TargetValue, IsRegistry};
ghost use Rattle.interleaved_runs.specs.StepLists.{turns_left};
ghost use Rattle.link_menu.specs.RowsByRound.{rounds_of, step_lists_in_all_rounds};
ghost use Rattle.menu_laws.specs.Work.{most_steps_of_request, most_steps_of_run, runs_of_request};

use machine_laws::{every_run_ends, run_ends_once};
use row_laws::{requests_are_small, row_bytes_are_cell_bytes, sums_of_rows_over_requests};

/// What a row over a request has: at most as many members as the request has pairs, and at most the bytes of the
/// longest row and three for each byte of the query. A code's bounds are for these numbers, which `verify` calls M and
/// E.
pub fn rows_over_requests_are_small()
    ensures members { (target : TargetValue) (pairs : List KeyValue) (row : ℕ)
        → member_count (row_environment target pairs row) ≤ length pairs }
    ensures bytes { (target : TargetValue) (file : Text) (request : ReadQuery) (row : ℕ)
        → IsTable file target.table → IsBounded request
        → byte_count (row_environment target request.pairs row) ≤ MAX_ROW_BYTES + 3 * request.query_bytes }
{
    sums_of_rows_over_requests();
    row_bytes_are_cell_bytes();
    requests_are_small();
}

/// The work of a request. All runs for it have, together, at most as many steps as the sum over the targets of their
/// matching rows times S(M) of their code. The runs take turns, and a round, which tries one row of each target, takes
/// at most the turns of its longest run.
///
/// It is false if only one matching row of each target counts. The search for the matching rows and the printing of the
/// menu are not counted.
pub fn work_of_a_request_is_bounded()
    ensures steps { (targets : List TargetValue) (pairs : List KeyValue) → IsRegistry targets
        → sum (runs_of_request targets pairs) ≤ most_steps_of_request targets pairs }
    ensures turns { (targets : List TargetValue) (pairs : List KeyValue) (most : ℕ) → IsRegistry targets
        → All (λ target. most_steps_of_run pairs target ≤ most) targets
        → length (step_lists_in_all_rounds targets pairs) ≤ rounds_of targets pairs * turns_left most }
{
    every_run_ends();
    run_ends_once();
    rows_over_requests_are_small();
}
