//! The pairs of a request, added to an environment.

ghost use Rattle.std.specs.Prelude.{◌≡◌, ℕ, ◌≤◌, false, true, ◌↔◌, length, slice_index_or, IfErr, OnOk, OnErr};
ghost use Rattle.text_model.specs.Texts.{texts_of};
ghost use Rattle.kev_read.specs.Filling as spec;
ghost use Rattle.kev_read.specs.Private.KeyOrder.{IsKeyOrder};
ghost use Rattle.kev_read.specs.Private.Layout.{key_value};

use crate::list_keys::mark_lists;
use crate::pairs::{Pair, Pairs};
use crate::read::MAX_PAIRS;
use target_vars::{Env, VarsError};

/// A request of up to this number of pairs has short marks, which take less time to clear than marks for the maximum
/// number of pairs.
const USUAL_PAIRS: usize = 64;

/// Adds each pair to the environment, up to the first that is rejected.
pub(crate) fn fill(
    pairs: &Pairs,
    order: &[u16],
    lists: &[&str],
    env: &mut Env,
) -> Result<(), VarsError>
    requires order { IsKeyOrder pairs.now order.now }
    requires few { length pairs.now ≤ MAX_PAIRS }
    ensures ok { OnOk result (env.new.entries ≡ spec.filled (texts_of lists.now) env.old.entries pairs.now) }
    ensures err { IfErr result (spec.StopsAtPair (texts_of lists.now) env.old.entries pairs.now env.new.entries) }
{
    if pairs.len() <= USUAL_PAIRS {
        let mut marks = [false; USUAL_PAIRS];
        fill_marked(pairs, order, lists, &mut marks, env)
    } else {
        let mut marks = [false; MAX_PAIRS];
        fill_marked(pairs, order, lists, &mut marks, env)
    }
}

/// Adds each pair as [`fill`] does; `marks` has room for a mark for each pair, and none is set.
fn fill_marked(
    pairs: &Pairs,
    order: &[u16],
    lists: &[&str],
    marks: &mut [bool],
    env: &mut Env,
) -> Result<(), VarsError>
    requires order { IsKeyOrder pairs.now order.now }
    requires room { length pairs.now ≤ length marks.old }
    requires unmarked { (index : ℕ) → slice_index_or marks.old index false ≡ false }
    ensures ok { OnOk result (env.new.entries ≡ spec.filled (texts_of lists.now) env.old.entries pairs.now) }
    ensures err { IfErr result (spec.StopsAtPair (texts_of lists.now) env.old.entries pairs.now env.new.entries) }
{
    mark_lists(pairs, order, lists, marks);
    for index in 0..pairs.len() {
        add(pairs.at(index), marks[index], env)?;
    }
    Ok(())
}

/// Adds a pair to the environment: as a member if its key names a list, and otherwise as a text.
fn add(pair: Pair<'_>, is_list: bool, env: &mut Env) -> Result<(), VarsError>
    ensures ok { OnOk result (env.new.entries ≡ spec.added is_list env.old.entries (key_value pair.entry)) }
    ensures too_large { (result ≡ Err VarsError.TooLarge)
        ↔ spec.IsTooLarge is_list env.old.entries (key_value pair.entry) }
    ensures added { OnErr result (spec.is_added is_list env.old.entries (key_value pair.entry) ≡ true) }
    ensures err { OnErr result (env.new.entries ≡ env.old.entries) }
{
    if is_list {
        env.add_member(pair.key, pair.value)?;
    } else {
        env.put_text(pair.key, pair.value)?;
    }
    Ok(())
}
