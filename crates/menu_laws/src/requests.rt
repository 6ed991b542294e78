//! What of a request a target reads.

ghost use Rattle.std.specs.Prelude.{◌≡◌, List};
ghost use Rattle.environment_model.specs.Environment.{Environment, members_of, text_of};
ghost use Rattle.code_model.specs.Code.{Code};
ghost use Rattle.machine_model.specs.Runs.{HasOutcome, Outcome};
ghost use Rattle.kev_read.specs.Pairs.{KeyValue};
ghost use Rattle.kbart_rows.specs.Identifiers.{ids_of};
ghost use Rattle.registry.specs.Entries.{entry_of};
ghost use Rattle.registry.specs.Targets.{TargetValue};
ghost use Rattle.menu_laws.specs.Keys.{DenoteTheSame, HaveSameValues, IsWithinBudget};

use machine_laws::{course_is_decided, states_after_steps_are_decided};
use registry::laws::fates_are_decided;
use row_laws::{requests_by_keys, rows_shadow_requests};

/// What code does depends only on what its names denote, and not on anything else in the environment.
pub fn code_reads_its_names_alone()
    ensures { (code : Code) (env other : Environment) (outcome : Outcome) → DenoteTheSame code env other
        → HasOutcome code env outcome → HasOutcome code other outcome }
{
    states_after_steps_are_decided();
}

/// A reader's keys stay out: a target does not see a key of a request that its rules do not name. If two requests have
/// the same values under the names of a target's code, and the same identifiers, the target's entries are equal, and so
/// its link tells its provider nothing else of the request.
///
/// The one channel is the bound on output bytes, which counts all keys of a request: a code that is over its bound on a
/// row does not run. So both requests must be within it on each matching row. The law is false if the members of lists
/// may differ.
pub fn readers_keys_stay_out()
    ensures { (target : TargetValue) (pairs others : List KeyValue) → HaveSameValues target.code pairs others
        → ids_of pairs ≡ ids_of others → IsWithinBudget target pairs → IsWithinBudget target others
        → entry_of target pairs ≡ entry_of target others }
{
    code_reads_its_names_alone();
    course_is_decided();
    fates_are_decided();
    rows_shadow_requests();
    requests_by_keys();
}
