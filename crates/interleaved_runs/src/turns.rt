//! Turns of interleaved runs.

ghost use Rattle.std.specs.Prelude.{◌≡◌, ℕ, ◌<◌, All, count_by, get_or, length};
ghost use Rattle.verified_runs.specs.RunValue.{RunValue};
ghost use Rattle.interleaved_runs.specs.Turns.{IsMoved, IsPlayed, is_live, own_turns};

use machine_laws::states_after_steps_are_decided;
use target_vars::Scope;
use verified_runs::Run;

/// Carries out up to `n` steps of each run, in order, and returns how many have not ended. It allocates nothing.
pub fn turn_all<E: Scope>(runs: &mut [Run<'_, E>], n: u64) -> usize
    ensures count { length runs.new ≡ length runs.old }
    ensures moved { (i : ℕ) (d : RunValue) → i < length runs.old
        → IsMoved (get_or runs.old i d) n (get_or runs.new i d) }
    ensures live { result ≡ count_by is_live runs.new }
{
    states_after_steps_are_decided();
    let mut live = 0;
    for run in runs.iter_mut() {
        if !run.advance(n) {
            live += 1;
        }
    }
    live
}

/// Carries out a schedule: in each turn `(i, n)`, up to `n` steps of run `i`. It allocates nothing.
///
/// A run is moved by the sum of its own turns, whatever the order of all turns, and the turns of other runs do not
/// change it.
pub fn play<E: Scope>(runs: &mut [Run<'_, E>], turns: &[(usize, u64)])
    requires { All (λ turn. turn.0 < length runs.old) turns.now }
    ensures count { length runs.new ≡ length runs.old }
    ensures played { (i : ℕ) (d : RunValue) → i < length runs.old
        → IsPlayed (get_or runs.old i d) (own_turns i turns.now) (get_or runs.new i d) }
{
    for turn in turns {
        runs[turn.0].advance(turn.1);
    }
}
